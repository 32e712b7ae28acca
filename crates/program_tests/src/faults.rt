//! Calls of the outside that fail: which status comes, what is written, and what the table holds.

use crate::outside::{Fails, NEVER, NO_FAILS, Seen, check_row, path};
use icb_base::Store;
use std::process::Abort;

/// A row of `cat-file` or of a text, with the number of the call of the table, the output and the error
/// stream that fails. No byte stands before block 1 in its own piece, so nothing more is written there;
/// a fault of the error stream changes nothing.
const FAULTS: [(u64, u64, u64, &str); 8] = [
    (
        0,
        NEVER,
        NEVER,
        "cat-file t data/x --key KEY --length 102;30;;StoreFault",
    ),
    (
        1,
        NEVER,
        NEVER,
        "cat-file t data/x --key KEY --length 102;30;;StoreFault",
    ),
    (
        NEVER,
        0,
        NEVER,
        "cat-file t data/x --key KEY --length 102;32;ab;OutputFault",
    ),
    (
        NEVER,
        1,
        NEVER,
        "cat-file t data/x --key KEY --length 102;32;abcdef;OutputFault",
    ),
    (NEVER, 0, NEVER, "--version;32;iceberg;OutputFault"),
    (
        NEVER,
        1,
        NEVER,
        r#"cat-file t data/flipped --key KEY --length 102;15;abcd;Block "data/flipped" 1"#,
    ),
    (
        NEVER,
        NEVER,
        0,
        r#"cat-file t data/flipped --key KEY --length 102;15;abcd;Block "data^"#,
    ),
    (
        NEVER,
        NEVER,
        0,
        "cat-file t data/x --key KEY --length 102;0;abcdefghij;",
    ),
];

/// What `seal-file t data/a --block 64` ends with, with the number of the call of the input, the draws,
/// the table and the output that fails, and whether `data/a` is held afterwards. The last read of the
/// input finds its end. Half of the line is written where the output fails.
const SEAL_FAULTS: [(u64, u64, u64, u64, &str, bool); 7] = [
    (0, NEVER, NEVER, NEVER, "31;;InputFault", false),
    (3, NEVER, NEVER, NEVER, "31;;InputFault", false),
    (0, 0, NEVER, NEVER, "31;;InputFault", false),
    (NEVER, 0, 0, NEVER, "33;;RandomFault", false),
    (NEVER, NEVER, 0, 0, "30;;StoreFault", false),
    (
        NEVER,
        NEVER,
        NEVER,
        0,
        "32;0120000102030405060708090a0b0;OutputFault",
        true,
    ),
    (
        NEVER,
        NEVER,
        NEVER,
        NEVER,
        "0;0120000102030405060708090a0b0c0d0e0f020c646174612f61028003$;",
        true,
    ),
];

/// The bytes of `data/a`, sealed with another implementation (Python's `cryptography`).
const OBJECT_OF_A: &str =
    "41475331400000000001020304050607000000001c15906084b1c0986017a44f01f4fdef5fee0267aadbca82e819285d8739efdaedc4c78cc2391d6ff6bad49ccfdb6da0588d4d579e0918f5da5ad6b7438d15be6e37d404bd8a98096c27147b88e0957f0001020304050607000000013b423eaa169021312643fa837cbafd0c614f5cb9954a25ae5dde5094a253f097766b67d89fc9c725694d05df8dedaf59fa48273a0521f4c0b133626f80165686bdc38dbc8d41a9e3c6f80b1c4b9ea676";

#[test]
fn faults_of_cat_file(rt: HostRuntime) {
    for (table, out, err, row) in FAULTS {
        let fails = Fails {
            table,
            out,
            err,
            ..NO_FAILS
        };
        check_row(&rt, &mut Seen::new(&rt, fails), row);
    }
}

#[test]
fn faults_of_seal_file(rt: HostRuntime) {
    for (input, draws, table, out, ended, held) in SEAL_FAULTS {
        let fails = Fails {
            input,
            draws,
            table,
            out,
            ..NO_FAILS
        };
        let mut seen = Seen::new(&rt, fails);
        let row = format!(in rt.alloc(); "seal-file t data/a --block 64;{ended}").expect(
            &rt, "a row",
        );
        check_row(&rt, &mut seen, row.as_str());
        assert!(rt; holds_a(&rt, &mut seen) == held, "{ended}");
    }
}

/// Whether the table holds `data/a`, as another implementation seals it.
fn holds_a(rt: &(impl Abort + AllocGlobal), seen: &mut Seen) -> bool {
    let path = path(rt, "data/a");
    if seen.table.size(&path) != Ok(Some(192)) {
        return false;
    }
    let mut found = [0; 192];
    assert!(rt; seen.table.read_at(&path, 0, &mut found) == Ok(Some(192)));
    let digits = hex::encode(rt.alloc(), found.as_slice()).expect(rt, "digits");
    digits.as_str() == OBJECT_OF_A
}
