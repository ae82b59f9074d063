//! The words of a command.

ghost use Rattle.std.specs.Prelude.{◌≡◌, ◌≤◌, map};
ghost use Rattle.std.specs.String.{string_bytes};
ghost use Rattle.vh_host.specs.Words.{command_in, render_in, replay_in, check_in, show_in, save_in, gen_in, behind_files, block_in};
ghost use Rattle.vh_host.specs.Named.{commanded};

use vh_text::number;

/// What is rendered, and into which file.
#[derive(Clone, Copy)]
pub(crate) struct Render<'a> {
    pub(crate) session: &'a str,
    pub(crate) input: &'a str,
    pub(crate) output: &'a str,
    /// What editors did, where a rendering is replayed.
    pub(crate) journal: Option<&'a str>,
    /// The frames of a block, 1 to 8192, in place of the session's pattern.
    pub(crate) block: Option<u32>,
}

/// The preset of a session's node, and into which file it is saved.
#[derive(Clone, Copy)]
pub(crate) struct Save<'a> {
    pub(crate) session: &'a str,
    pub(crate) node: &'a str,
    pub(crate) output: &'a str,
}

/// A command.
#[derive(Clone, Copy)]
pub(crate) enum Command<'a> {
    Render(Render<'a>),
    /// And the session's file.
    Check(&'a str),
    /// And the preset's file.
    PresetShow(&'a str),
    PresetSave(Save<'a>),
    /// And the number.
    Gen(u32),
}

/// `block=N`, with N from 1 to 8192.
fn block(word: &[u8]) -> Option<u32>
    ensures { result ≡ block_in word.now }
{
    let size = number(word.strip_prefix(b"block=".as_slice())?)?;
    if (1..=8192).contains(&size) {
        Some(size)
    } else {
        None
    }
}

/// The words behind the files of a rendering: none, or one `block=N`.
pub fn read_block(words: &[String]) -> Option<Option<u32>>
    ensures { result ≡ behind_files (map string_bytes words.now) }
{
    match words {
        [] => Some(None),
        [word] => Some(Some(block(word.as_bytes())?)),
        _ => None,
    }
}

/// `SESSION IN OUT`.
fn read_render(words: &[String]) -> Option<Command<'_>>
    ensures { commanded result ≡ render_in (map string_bytes words.now) }
{
    let [session, input, output, rest @ ..] = words else {
        return None;
    };
    Some(Command::Render(Render {
        session: session.as_str(),
        input: input.as_str(),
        output: output.as_str(),
        journal: None,
        block: read_block(rest)?,
    }))
}

/// `SESSION IN OUT JOURNAL`.
fn read_replay(words: &[String]) -> Option<Command<'_>>
    ensures { commanded result ≡ replay_in (map string_bytes words.now) }
{
    let [session, input, output, journal, rest @ ..] = words else {
        return None;
    };
    Some(Command::Render(Render {
        session: session.as_str(),
        input: input.as_str(),
        output: output.as_str(),
        journal: Some(journal.as_str()),
        block: read_block(rest)?,
    }))
}

/// `SESSION`.
fn read_check(words: &[String]) -> Option<Command<'_>>
    ensures { commanded result ≡ check_in (map string_bytes words.now) }
{
    match words {
        [session] => Some(Command::Check(session.as_str())),
        _ => None,
    }
}

/// `FILE`.
fn read_show(words: &[String]) -> Option<Command<'_>>
    ensures { commanded result ≡ show_in (map string_bytes words.now) }
{
    match words {
        [preset] => Some(Command::PresetShow(preset.as_str())),
        _ => None,
    }
}

/// `SESSION NODE OUT`.
fn read_save(words: &[String]) -> Option<Command<'_>>
    ensures { commanded result ≡ save_in (map string_bytes words.now) }
{
    match words {
        [session, node, output] => Some(Command::PresetSave(Save {
            session: session.as_str(),
            node: node.as_str(),
            output: output.as_str(),
        })),
        _ => None,
    }
}

/// `N`.
fn read_gen(words: &[String]) -> Option<Command<'_>>
    ensures { commanded result ≡ gen_in (map string_bytes words.now) }
{
    match words {
        [word] => Some(Command::Gen(number(word.as_bytes())?)),
        _ => None,
    }
}

/// Reads the words of a command.
pub(crate) fn read_words(words: &[String]) -> Option<Command<'_>>
    ensures { commanded result ≡ command_in (map string_bytes words.now) }
{
    let (first, rest) = words.split_first()?;
    match first.as_str() {
        "render" => read_render(rest),
        "replay" => read_replay(rest),
        "check" => read_check(rest),
        "preset-show" => read_show(rest),
        "preset-save" => read_save(rest),
        "gen" => read_gen(rest),
        _ => None,
    }
}
