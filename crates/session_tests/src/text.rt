use std::test::Fail;
use vh_num::Refusal;
use vh_text::{BadByte, Lines, Token, Writer, first_word, laws, number, tokens, words};

const fn token(from: u32, to: u32) -> Token {
    Token { from, to }
}

#[test]
fn words_are_the_longest_runs(rt: HostRuntime) -> Result<(), Fail> {
    let alloc = rt.alloc();
    let some = tokens(alloc, b"  wire  in a ")?;
    assert_eq!(rt;
        some.as_slice(),
        &[token(2, 6), token(8, 10), token(11, 12)][..]
    );
    let one = tokens(alloc, b"~!")?;
    assert_eq!(rt; one.as_slice(), &[token(0, 2)][..]);
    assert_eq!(rt; tokens(alloc, b"")?.len(), 0);
    assert_eq!(rt; tokens(alloc, b"   ")?.len(), 0);
    assert_eq!(rt; first_word(b"  wire  in"), b"wire".as_slice());
    Ok(())
}

#[test]
fn the_first_bad_byte_is_named(rt: HostRuntime) {
    for (line, place) in [(b"a\tb\x7f", 1), (b"abc\x7f", 3), (b"\x1f a ", 0)] {
        let fault = Refusal::Fault(BadByte { place });
        assert!(rt; tokens(rt.alloc(), line).err() == Some(fault));
    }
}

#[test]
fn numbers_have_one_to_ten_digits(rt: HostRuntime) {
    for (text, value) in [
        ("0", Some(0)),
        ("007", Some(7)),
        ("4294967295", Some(4_294_967_295)),
        ("0000000001", Some(1)),
        ("4294967296", None),
        ("9999999999", None),
        ("00000000001", None),
        ("", None),
        ("+1", None),
        ("1 ", None),
        ("1a", None),
    ] {
        assert_eq!(rt; number(text.as_bytes()), value, "{text}");
    }
}

#[test]
fn lines_end_before_a_line_feed_or_with_the_text(rt: HostRuntime) {
    let mut lines = Lines::new(b"a b\r\n\nc\rd\r\r\ne\r");
    for line in ["a b", "", "c\rd\r", "e"] {
        assert_eq!(rt; lines.next(), Some(line.as_bytes()));
    }
    assert_eq!(rt; lines.next(), None);
    assert_eq!(rt; Lines::new(b"").count(), 0);
    assert_eq!(rt; Lines::new(b"\n").count(), 1);
    assert_eq!(rt; Lines::new(b"a\nb").count(), 2);
    assert_eq!(rt; Lines::new(b"a\nb\n").count(), 2);
}

#[test]
fn what_is_written_is_read(rt: HostRuntime) -> Result<(), Fail> {
    let alloc = rt.alloc();
    let mut text = Writer::new(alloc);
    text.begin(b"tell")?;
    text.word(b"a_1")?;
    text.number(0)?;
    text.last_numbers(&[7, 4_294_967_295])?;
    text.begin(b"close")?;
    text.end()?;
    let bytes = text.finish();
    assert_eq!(rt;
        bytes.as_slice(),
        b"tell a_1 0 7 4294967295\nclose\n".as_slice()
    );
    let some = words(alloc, b" tell  a_1 0")?;
    assert_eq!(rt;
        (some.len(), some[0], some[1]),
        (3, b"tell".as_slice(), b"a_1".as_slice())
    );
    let fault = Refusal::Fault(BadByte { place: 1 });
    assert!(rt; words(alloc, b"a\x7f").err() == Some(fault));
    laws::words_are_runs();
    laws::written_is_read();
    Ok(())
}
