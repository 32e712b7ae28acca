//! A table of two appends, of which the second one's data file is changed.

use crate::outside::{RING, Seen, check_rows, drawn, path};
use icb_base::Bytes;
use std::process::Abort;

/// A table of one column, and two appends.
const APPENDS: &str = r#"create t --keys k --master m1 --schema n:long!;;0;version 1|;;1
append t --keys k;[1]|[2]|[3]|[4]|[5]|;0;snapshot 1 version 2|;;5
append t --keys k;[6]|[7]|[8]|[9]|;0;snapshot 2 version 3|;;9
scan t --keys k --range n --low 5 --high 5;;0;[5]|;;9"#;

/// Where the second append's 16 bytes begin among those that are drawn: behind 44 of `create`, and 148 of the first
/// append, which are 16, 40 for each of three files, and 12.
const SECOND: usize = 192;

/// The path of the second append's data file.
fn second_file(rt: &(impl Abort + AllocGlobal)) -> String {
    let drawn = drawn(rt);
    let own = drawn.as_slice().get(SECOND..SECOND + 16);
    let unique = hex::encode(rt.alloc(), own.expect(rt, "16 bytes")).expect(rt, "room");
    format!(in rt.alloc(); "data/{unique}-00000.avro").expect(rt, "room")
}

/// The table with other bytes in the place of that file's: the given ones of each byte and whether it is the last.
fn changed<F: Fn(u8, bool) -> u8>(rt: &(impl Abort + AllocGlobal), change: F) -> Seen
    requires { F.IsAlwaysCallable change }
{
    let mut seen = Seen::empty(rt);
    check_rows(rt, &mut seen, RING, APPENDS);
    let name = second_file(rt);
    let path = path(rt, name.as_str());
    let mut bytes = Bytes::new(rt.alloc());
    let object = seen.table.get(&path).expect(rt, "the data file");
    for (at, byte) in object.iter().enumerate() {
        bytes
            .push(change(*byte, at + 1 == object.len()))
            .expect(rt, "room");
    }
    seen.table.set(path, bytes).expect(rt, "room");
    seen
}

/// Scans with the range that leaves the file out, and all rows, which ends with this line behind the file's path.
fn check_changed(rt: &(impl Abort + AllocGlobal), seen: &mut Seen, number: u8, line: &str) {
    check_rows(
        rt,
        seen,
        RING,
        "scan t --keys k --range n --low 5 --high 5;;0;[5]|;;9",
    );
    let name = second_file(rt);
    let row = format!(in rt.alloc();
        "scan t --keys k;;{number};[1]|[2]|[3]|[4]|[5]|;{line}|;9"
    ).expect(rt, "room");
    let row = row
        .as_str()
        .replace(rt.alloc(), "PATH", name.as_str())
        .expect(rt, "room");
    check_rows(rt, seen, RING, row.as_str());
}

/// With every byte another one: the magic `AGS1` becomes `BHT2`.
#[test]
fn every_byte_changed(rt: HostRuntime) {
    let mut seen = changed(&rt, |byte, _| byte.wrapping_add(1));
    check_changed(&rt, &mut seen, 14, r#"Header "PATH" Magic 42485432"#);
}

#[test]
fn the_last_byte_changed(rt: HostRuntime) {
    let mut seen = changed(&rt, |byte, is_last| if is_last { byte ^ 1 } else { byte });
    check_changed(&rt, &mut seen, 15, r#"Block "PATH" 0"#);
}
