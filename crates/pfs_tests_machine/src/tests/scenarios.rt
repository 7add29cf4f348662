//! The cases that replays are tried with too, as events.

use super::engines::tell_each;
use pfs_tests_cases::{SCENARIO_COUNT, scenario};
use std::test::Fail;

#[test]
fn events_have_the_outcomes_of_their_case(rt: HostRuntime) -> Result<(), Fail> {
    for number in 0..SCENARIO_COUNT {
        if let Some((first, cases)) = scenario(number) {
            tell_each(&rt, first, cases)?;
        }
    }
    Ok(())
}
