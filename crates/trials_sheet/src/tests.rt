// Sheets of every form, accepted and denied.
use crate::{DOTS, prints};
use denials::Denial;
use sheet::run_sheet;

#[test]
fn loggers_and_runs(rt: HostRuntime) {
    assert!(rt;
        prints(
            b"d 12 3\ne 3\nt 0 1 1 5 9\nw 2\n",
            b"e 12 3 198 270 72\nw 4 2 15 16 1\n",
        )
    );
    assert!(rt;
        prints(b"d 12 3\ne 3", b"e 12 3 198 270 72\n"),
        "no byte 10 at the end"
    );
    assert!(rt; prints(b"d 1 1\ne 0\nw 0", b"e 1 0 1 1 0\nw 1 0 1 1 0\n"));
    assert!(rt;
        prints(
            b"d 1000000 4294\nw 254\ne 254",
            b"w 1000000 254 2138552062293160 2155452231706840 16900169413680\ne 1000000 254 2138584686022570 2155419607977430 16834921954860\n",
        ),
        "the largest runs"
    );
}

#[test]
fn empty_sheets_and_lines(rt: HostRuntime) {
    assert!(rt; prints(b"", b""));
    assert!(rt; prints(b"\n", b"? 1 13\n"));
    assert!(rt;
        prints(
            b"\n\nd 3 1\n\ne 1\n",
            b"? 1 13\n? 2 13\n? 4 13\ne 3 1 5 7 2\n",
        )
    );
    assert!(rt;
        prints(b"e 1\nw 0\nd 3 1", b"? 1 13\n? 2 13\n"),
        "runs before any logger"
    );
}

#[test]
fn denials_of_calls(rt: HostRuntime) {
    assert!(rt;
        prints(
            b"d 0 1\nd 1000001 1\nd 0 0\nt 5\n",
            b"? 1 1\n? 2 1\n? 3 1\n? 4 1\n",
        )
    );
    assert!(rt;
        prints(
            b"d 12 0\nd 2 2147483648\nd 1 4294967295\ne 0",
            b"? 1 12\n? 2 12\ne 1 0 4294967295 4294967295 0\n",
        )
    );
    assert!(rt;
        prints(
            b"d 12 1\ne 12\nw 12\ne 255\nw 255\nw 11",
            b"? 2 3\n? 3 3\n? 4 3\n? 5 3\nw 12 11 78 78 0\n",
        )
    );
    assert!(rt;
        prints(
            b"d 3 2\nt 0 3 2\ne 2\nd 0 1\nt 7\nw 2",
            b"? 2 14\ne 3 2 12 12 0\n? 4 1\n? 5 1\nw 3 2 12 12 0\n",
        ),
        "a denied line keeps the logger"
    );
}

#[test]
fn other_forms(rt: HostRuntime) {
    assert!(rt;
        prints(
            b"d 3\nd 3 1 1\ne\ne 1 1\nt\nt \nd",
            b"? 1 13\n? 2 13\n? 3 13\n? 4 13\n? 5 13\n? 6 13\n? 7 13\n",
        )
    );
    assert!(rt;
        prints(
            b" d 3 1\nd 3 1 \nd  3 1\nd\t3 1\nd 3 1\r\n",
            b"? 1 13\n? 2 13\n? 3 13\n? 4 13\n? 5 13\n",
        )
    );
    assert!(rt;
        prints(
            b"d 03 1\nd 3 +1\nd 3 -1\nx 1\nD 3 1\ndd 3 1\n3 1\n",
            b"? 1 13\n? 2 13\n? 3 13\n? 4 13\n? 5 13\n? 6 13\n? 7 13\n",
        )
    );
    assert!(rt;
        prints(
            b"t 00 1\nt 0 1\ne 0\nt 1 2a\n\0\n",
            b"? 1 13\ne 1 0 1 1 0\n? 4 13\n? 5 13\n",
        )
    );
}

#[test]
fn largest_numbers(rt: HostRuntime) {
    assert!(rt;
        prints(
            b"t 0 4294967295\ne 0\nt 0 4294967296\ne 4294967295\ne 4294967296\nw 9999999999\nw 10000000000\n",
            b"e 1 0 4294967295 4294967295 0\n? 3 13\n? 4 3\n? 5 13\n? 6 13\n? 7 13\n",
        )
    );
}

#[test]
fn rows_of_64_and_65_values(rt: HostRuntime) {
    assert!(rt;
        prints(
            b"t 7 7 7 7 7 7 7 7 7 7 7 7 7 7 7 7 7 7 7 7 7 7 7 7 7 7 7 7 7 7 7 7 7 7 7 7 7 7 7 7 7 7 7 7 7 7 7 7 7 7 7 7 7 7 7 7 7 7 7 7 7 7 7 7\ne 0",
            b"e 63 0 448 448 0\n",
        )
    );
    assert!(rt;
        prints(
            b"t 7 7 7 7 7 7 7 7 7 7 7 7 7 7 7 7 7 7 7 7 7 7 7 7 7 7 7 7 7 7 7 7 7 7 7 7 7 7 7 7 7 7 7 7 7 7 7 7 7 7 7 7 7 7 7 7 7 7 7 7 7 7 7 7 7\ne 0",
            b"? 1 13\n? 2 13\n",
        )
    );
}

#[test]
fn sheet_of_2048_bytes(rt: HostRuntime) {
    let sheet = [b'd'; 2_048];
    assert!(rt; prints(&sheet, b"? 1 13\n"));
}

#[test]
fn sheet_of_2049_bytes_is_denied(rt: HostRuntime) {
    let sheet = [b'd'; 2_049];
    let mut out = DOTS;
    assert!(rt; run_sheet(&sheet, &mut out) == Err(Denial::Form(0)));
    assert!(rt; out == DOTS);
    let mut short = [b'.'; 9];
    assert!(rt;
        run_sheet(&sheet, &mut short) == Err(Denial::Form(0)),
        "before the room is looked at"
    );
}

#[test]
fn short_row_is_denied(rt: HostRuntime) {
    let mut out = [b'.'; 36_863];
    assert!(rt; run_sheet(b"d 3 1\ne 0", &mut out) == Err(Denial::Short(36_864)));
    assert!(rt; out == [b'.'; 36_863]);
}

#[test]
fn as_many_lines_as_bytes(rt: HostRuntime) {
    let mut out = DOTS;
    let lines = [b'\n'; 2_048];
    assert!(rt; run_sheet(&lines, &mut out) == Ok(19_373));
    assert!(rt; &out[19_363..19_373] == b"? 2048 13\n".as_slice());
}
