//! The words of a live rendering.

ghost use Rattle.std.specs.Prelude.{◌≡◌, ◌≤◌, map};
ghost use Rattle.std.specs.String.{string_bytes};
ghost use Rattle.vh_live_host.specs.Words.{files_in, live_in};
ghost use Rattle.vh_live_host.specs.Named.{asked};

use vh_host::read_block;

/// The files of a live rendering.
#[derive(Clone, Copy)]
pub(crate) struct Live<'a> {
    pub(crate) session: &'a str,
    pub(crate) input: &'a str,
    pub(crate) output: &'a str,
    /// What the editors did is written there.
    pub(crate) journal: &'a str,
    /// The frames of a block, 1 to 8192, in place of the session's pattern.
    pub(crate) block: Option<u32>,
}

/// `SESSION IN OUT JOURNAL`, and `block=N` where blocks have another size.
fn read_files(words: &[String]) -> Option<Live<'_>>
    ensures { asked result ≡ files_in (map string_bytes words.now) }
{
    let [session, input, output, journal, rest @ ..] = words else {
        return None;
    };
    Some(Live {
        session: session.as_str(),
        input: input.as_str(),
        output: output.as_str(),
        journal: journal.as_str(),
        block: read_block(rest)?,
    })
}

/// Reads the words of a live rendering.
pub(crate) fn read_words(words: &[String]) -> Option<Live<'_>>
    ensures { asked result ≡ live_in (map string_bytes words.now) }
{
    let (first, rest) = words.split_first()?;
    match first.as_str() {
        "live" => read_files(rest),
        _ => None,
    }
}
