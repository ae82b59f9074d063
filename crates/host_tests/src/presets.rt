//! Presets: of nodes, shown, and saved.

use crate::stores::{INPUT, run_words, session_with, store};
use std::alloc::{AllocError, Global};
use std::test::Fail;
use vh_files::{MemFiles, MemSay};
use vh_host::{Place, Status};

/// The gain's class in the digits of either case, and another class.
const GAIN: &str = "56485354434F4D500000000000000001";

const GAIN_LOWER: &str = "56485354434f4d500000000000000001";

const OTHER: &str = "0123456789ABCDEF0123456789ABCDEF";

/// The gain's state at Level 0.5 and at Level 0, not bypassed.
const HALF: &[u8] = b"\x01\0\0\0\0\0\0\0\0\0\x80\0\x01\0\0\0\0\0\0\0";

const SILENT: &[u8] = b"\x01\0\0\0\0\0\0\0\0\0\0\0\x01\0\0\0\0\0\0\0";

/// Lines of a session of one gain behind its first eight.
const LOADED: &str = "wire a out\npreset a p";

/// Adds a number of so many bytes, the least first.
fn put_number(file: &mut Vec<u8>, n: usize, bytes: u32) -> Result<(), AllocError> {
    let mut left = n;
    for _ in 0..bytes {
        file.push((left % 256) as u8)?;
        left /= 256;
    }
    Ok(())
}

/// A preset of a class with these chunks, one after the other.
fn preset(alloc: Global, class: &str, chunks: &[(&str, &[u8])]) -> Result<Vec<u8>, AllocError> {
    let mut file = Vec::from_slice(alloc, b"VST3\x01\0\0\0")?;
    file.extend_from_slice(class.as_bytes())?;
    let mut size: usize = 48;
    for (_, bytes) in chunks {
        size = bytes.len().saturating_add(size);
    }
    put_number(&mut file, size, 8)?;
    for (_, bytes) in chunks {
        file.extend_from_slice(bytes)?;
    }
    file.extend_from_slice(b"List")?;
    put_number(&mut file, chunks.len(), 4)?;
    let mut at: usize = 48;
    for (id, bytes) in chunks {
        file.extend_from_slice(id.as_bytes())?;
        put_number(&mut file, at, 8)?;
        put_number(&mut file, bytes.len(), 8)?;
        at = bytes.len().saturating_add(at);
    }
    Ok(file)
}

/// A store with a session that loads preset `p`, an input, and this preset.
fn loaded(alloc: Global, preset: Vec<u8>) -> Result<MemFiles, AllocError> {
    let mut files = store(alloc, session_with(alloc, 7, LOADED)?, INPUT)?;
    files.put(alloc, "p", preset)?;
    Ok(files)
}

#[test]
fn presets_are_listed_and_refused(rt: HostRuntime) -> Result<(), Fail> {
    let alloc = rt.alloc();
    let empty = preset(alloc, GAIN, &[])?;
    let short = Vec::from_slice(alloc, empty.get(..47).expect(&rt, "47 bytes"))?;
    let cut = Vec::from_slice(alloc, empty.get(..55).expect(&rt, "55 bytes"))?;
    let usual = [
        ("Comp", b"abcd".as_slice()),
        ("Cont", b"ef".as_slice()),
        ("Info", b"ghijk".as_slice()),
    ];
    let other = preset(alloc, OTHER, &usual)?;
    assert_eq!(rt; (empty.len(), other.len()), (56, 127));
    let rows = [
        (
            empty,
            "vsthost preset 1\nclass 56485354434F4D500000000000000001\nversion 1\nclose\n",
            "refused preset 0 10\n",
        ),
        (cut, "refused preset - 5\n", "refused preset 0 5\n"),
        (short, "refused preset - 1\n", "refused preset 0 1\n"),
        (
            other,
            "vsthost preset 1\nclass 0123456789ABCDEF0123456789ABCDEF\nversion 1\nchunk 436F6D70 48 4\nchunk 436F6E74 52 2\nchunk 496E666F 54 5\nclose\n",
            "refused preset 0 9\n",
        ),
        (
            preset(alloc, GAIN, &[("Comp", b"abcd".as_slice())])?,
            "vsthost preset 1\nclass 56485354434F4D500000000000000001\nversion 1\nchunk 436F6D70 48 4\nclose\n",
            "refused preset 0 11\n",
        ),
    ];
    for (bytes, shown, refused) in rows {
        let mut files = loaded(alloc, bytes)?;
        let mut say = MemSay::new(alloc)?;
        let _ = run_words(&rt, alloc, "preset-show p", &mut files, &mut say)?;
        assert_eq!(rt; say.said(), shown.as_bytes());
        let mut say = MemSay::new(alloc)?;
        let _ = run_words(&rt, alloc, "render s in.wav out.wav", &mut files, &mut say)?;
        assert_eq!(rt; say.said(), refused.as_bytes());
        assert_eq!(rt; files.get("out.wav"), None);
    }
    Ok(())
}

#[test]
fn a_preset_that_is_missing_creates_nothing(rt: HostRuntime) -> Result<(), Fail> {
    let alloc = rt.alloc();
    let mut files = store(alloc, session_with(alloc, 7, LOADED)?, INPUT)?;
    for words in [
        "render s in.wav out.wav",
        "preset-save s a out.wav",
        "preset-show p",
    ] {
        let mut say = MemSay::new(alloc)?;
        assert_eq!(rt;
            run_words(&rt, alloc, words, &mut files, &mut say)?,
            Status::ReadFault(Place::Preset)
        );
        assert_eq!(rt; say.said(), b"failed read preset\n".as_slice());
        assert_eq!(rt; files.get("out.wav"), None);
    }
    Ok(())
}

#[test]
fn a_preset_is_loaded_and_saved_again(rt: HostRuntime) -> Result<(), Fail> {
    let alloc = rt.alloc();
    let mut twice = preset(alloc, GAIN_LOWER, &[("Comp", HALF), ("Comp", SILENT)])?;
    twice.extend_from_slice(b"abc")?;
    assert_eq!(rt; twice.len(), 139);
    let mut files = loaded(alloc, twice)?;
    let mut say = MemSay::new(alloc)?;
    assert_eq!(rt;
        run_words(&rt, alloc, "render s in.wav out.wav", &mut files, &mut say)?,
        Status::Ok
    );
    assert_eq!(rt; say.said(), crate::stores::REPORT.as_bytes());
    let mut say = MemSay::new(alloc)?;
    assert_eq!(rt;
        run_words(&rt, alloc, "preset-save s a q", &mut files, &mut say)?,
        Status::Ok
    );
    assert_eq!(rt; say.said(), b"".as_slice());
    let mode = b"\x01\0\0\0\0\0\0\0".as_slice();
    let saved = preset(alloc, GAIN, &[("Comp", HALF), ("Cont", mode)])?;
    assert_eq!(rt; saved.len(), 124);
    assert_eq!(rt; files.get("q"), Some(saved.as_slice()));
    assert_eq!(rt;
        run_words(&rt, alloc, "preset-save s nobody r", &mut files, &mut say)?.number(),
        4
    );
    assert_eq!(rt; say.said(), b"refused preset - 13\n".as_slice());
    assert_eq!(rt; files.get("r"), None);
    let mut again = loaded(alloc, saved)?;
    let mut say = MemSay::new(alloc)?;
    assert_eq!(rt;
        run_words(&rt, alloc, "preset-save s a p", &mut again, &mut say)?,
        Status::Ok
    );
    assert_eq!(rt; again.get("p"), files.get("q"));
    Ok(())
}

#[test]
fn a_controller_in_its_other_mode_shows_no_text(rt: HostRuntime) -> Result<(), Fail> {
    let alloc = rt.alloc();
    let mode = b"\x01\0\0\0\x01\0\0\0".as_slice();
    let mut files = loaded(
        alloc,
        preset(alloc, GAIN, &[("Comp", HALF), ("Cont", mode)])?,
    )?;
    let mut say = MemSay::new(alloc)?;
    assert_eq!(rt;
        run_words(&rt, alloc, "render s in.wav out.wav", &mut files, &mut say)?,
        Status::Ok
    );
    assert_eq!(rt;
        say.said(),
        b"vsthost report 1\nframes 3\npieces 1\nparam a 0 8388608\nparam a 1 0\nclose\n".as_slice()
    );
    Ok(())
}

#[test]
fn faults_of_files_come_before_those_of_classes(rt: HostRuntime) -> Result<(), Fail> {
    let alloc = rt.alloc();
    let rows = [
        ("p", "q", "refused preset 1 1\n"),
        ("q", "p", "refused preset 0 1\n"),
        ("p", "r", "refused preset 0 9\n"),
        ("r", "p", "refused preset 0 10\n"),
    ];
    for (first, second, said) in rows {
        let mut text = session_with(alloc, 6, "node b gain\nwire in a")?;
        for (node, name) in [("a", first), ("b", second)] {
            for word in ["preset ", node, " ", name, "\n"] {
                text.extend_from_slice(word.as_bytes())?;
            }
        }
        let mut files = store(alloc, text, INPUT)?;
        files.put(alloc, "p", preset(alloc, OTHER, &[])?)?;
        files.put(alloc, "q", Vec::from_slice(alloc, b"VST3")?)?;
        files.put(alloc, "r", preset(alloc, GAIN, &[])?)?;
        let mut say = MemSay::new(alloc)?;
        let _ = run_words(&rt, alloc, "render s in.wav out.wav", &mut files, &mut say)?;
        assert_eq!(rt; say.said(), said.as_bytes());
        assert_eq!(rt; files.get("out.wav"), None);
    }
    Ok(())
}

#[test]
fn a_line_goes_over_the_preset(rt: HostRuntime) -> Result<(), Fail> {
    let alloc = rt.alloc();
    let text = session_with(alloc, 7, "wire a out\npreset a p\nparam a 0 16777216")?;
    let mut files = store(alloc, text, INPUT)?;
    files.put(alloc, "p", preset(alloc, GAIN, &[("Comp", SILENT)])?)?;
    let mut say = MemSay::new(alloc)?;
    assert_eq!(rt;
        run_words(&rt, alloc, "render s in.wav out.wav", &mut files, &mut say)?,
        Status::Ok
    );
    assert_eq!(rt;
        say.said(),
        b"vsthost report 1\nframes 3\npieces 1\nparam a 0 16777216 1.0000\nparam a 1 0 Off\nclose\n".as_slice()
    );
    Ok(())
}
