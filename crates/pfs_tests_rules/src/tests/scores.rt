//! Scores of handshakes by worked examples.

use pfs_tests_cases::same;
use pfs_track::Score;
use std::process::Abort;

/// The scores after handshakes at these moments, of a rate over 10 seconds.
fn check(rt: &impl Abort, handshakes: &[(u64, u64)]) {
    let mut score = Score::default();
    for (moment, value) in handshakes {
        assert!(rt; score.last <= *moment && score.value <= 4_294_968_000);
        score = score.add(*moment, 10);
        let wanted = Score {
            value: *value,
            last: *moment,
        };
        same!(rt; score, wanted);
    }
}

const DECAYS: &[&[(u64, u64)]] = &[
    &[(0, 1000), (0, 2000), (0, 3000), (0, 4000)],
    &[(0, 1000), (1, 1900), (2, 2710), (3, 3439)],
    &[
        (0, 1000),
        (0, 2000),
        (0, 3000),
        (9, 1300),
        (9, 2300),
        (9, 3300),
    ],
    &[
        (0, 1000),
        (0, 2000),
        (0, 3000),
        (10, 1000),
        (10, 2000),
        (10, 3000),
    ],
];

#[test]
fn scores_decay_over_the_seconds_of_the_rate(rt: HostRuntime) {
    for &handshakes in DECAYS {
        check(&rt, handshakes);
    }
}

#[test]
fn a_score_has_a_greatest_value(rt: HostRuntime) {
    let near = Score {
        value: 4_294_967_500,
        last: 7,
    };
    let greatest = near.add(7, 10);
    same!(rt; greatest.value, 4_294_968_000);
    assert!(rt; greatest.over(4_294_967));
    let slow = near.add(8, u64::MAX);
    same!(rt; slow.value, 4_294_968_000);
    let three = Score {
        value: 3000,
        last: 0,
    };
    assert!(rt; three.over(2) && !three.over(3));
}
