//! Sums of days. The texts and the sums are written by hand.

use icb_generate::sum_of_days;

/// Lines of days, and their sum.
const TEXTS: [(&str, u64); 6] = [
    ("", 0),
    ("[0]\n", 0),
    ("[5]\n[42]\n[79]\n[116]\n[153]\n", 395),
    ("[19999]\n[1]\n", 20000),
    ("[10]\n[200]\n[3000]\n", 3210),
    ("[2147483647]\n[2147483647]\n[2]\n", 4294967296),
];

#[test]
fn days_are_summed(rt: HostRuntime) {
    for (text, sum) in TEXTS {
        assert!(rt; sum_of_days(text.as_bytes()) == sum);
    }
}
