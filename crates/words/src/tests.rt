// Small words, read from sheets and written into rows.
use crate::cursors::Cursor;
use crate::lexing::Word;
use crate::numbers::number_of;
use crate::writing::write_line;

#[test]
fn number_words(rt: HostRuntime) {
    assert!(rt; number_of(b"0") == Some(0));
    assert!(rt; number_of(b"7") == Some(7));
    assert!(rt; number_of(b"4294967295") == Some(4_294_967_295));
    assert!(rt; number_of(b"4294967296") == None);
    assert!(rt; number_of(b"9999999999") == None);
    assert!(rt; number_of(b"00") == None);
    assert!(rt; number_of(b"01") == None);
    assert!(rt; number_of(b"10000000000") == None);
    assert!(rt; number_of(b"") == None);
    assert!(rt; number_of(b"+7") == None);
}

fn word_at(sheet: &[u8], at: usize) -> Option<Word<'_>> {
    Cursor { sheet, at }.word()
}

#[test]
fn words_of_a_sheet(rt: HostRuntime) {
    let sheet = b"e 12\nt 0  5\tx\r";
    assert!(rt; matches!(word_at(sheet, 0), Some(Word::Letter([b'e'], 0))));
    assert!(rt; matches!(word_at(sheet, 2), Some(Word::Number([b'1', b'2'], 2))));
    assert!(rt; matches!(word_at(sheet, 3), Some(Word::Number([b'2'], 3))));
    assert!(rt; matches!(word_at(sheet, 4), Some(Word::LineEnd([b'\n'], 4))));
    assert!(rt; matches!(word_at(sheet, 14), Some(Word::LineEnd([], 14))));
    assert!(rt; matches!(word_at(sheet, 99), Some(Word::LineEnd([], 99))));
    assert!(rt; word_at(sheet, 9).is_none(), "a second space");
    assert!(rt; word_at(sheet, 10).is_none(), "a tab in a word");
    assert!(rt; word_at(sheet, 13).is_none(), "a carriage return");
}

#[test]
fn line_is_written(rt: HostRuntime) {
    let mut row = [b'.'; 90];
    assert!(rt; write_line(b'e', &[12, 3, 198, 270, 72], &mut row, 1) == Some(19));
    assert!(rt; &row[0..20] == b".e 12 3 198 270 72\n.".as_slice());
}

#[test]
fn longest_number_is_written(rt: HostRuntime) {
    let mut row = [b'.'; 19];
    assert!(rt; write_line(b'?', &[10_000_000_000_000_000], &mut row, 0) == None);
    assert!(rt; &row[0..19] == b"...................".as_slice());
    assert!(rt; write_line(b'?', &[9_999_999_999_999_999], &mut row, 0) == Some(19));
    assert!(rt; &row[0..19] == b"? 9999999999999999\n".as_slice());
}

#[test]
fn short_row_is_kept(rt: HostRuntime) {
    let mut row = [b'.'; 19];
    assert!(rt; write_line(b'w', &[4], &mut row, 1) == None);
    assert!(rt; write_line(b'w', &[4], &mut row, 20) == None);
    assert!(rt; &row[0..19] == b"...................".as_slice());
}
