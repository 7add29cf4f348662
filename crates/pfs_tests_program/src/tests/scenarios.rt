//! The cases that engines are tried with too, as replays of texts.

use super::traces::tell_each;
use pfs_tests_cases::{SCENARIO_COUNT, scenario};
use std::test::Fail;

#[test]
fn reports_tell_the_outcomes_of_their_case(rt: HostRuntime) -> Result<(), Fail> {
    for number in 0..SCENARIO_COUNT {
        if let Some((first, cases)) = scenario(number) {
            tell_each(&rt, first, cases)?;
        }
    }
    Ok(())
}
