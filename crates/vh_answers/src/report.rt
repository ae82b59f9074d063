//! The report of a rendering.

ghost use Rattle.std.specs.Prelude.{◌≡◌, ◌≤◌, ◌<◌, ◌^◌, ◌+◌, ◌++◌, [], ◌∷◌, ℕ, Some, length, map, take, drop, min, All};
ghost use Rattle.vh_params.specs.Nodes.{nodes_of, node_at};
ghost use Rattle.vh_params.specs.Params.{param_in};
ghost use Rattle.vh_params.specs.Tables.{params_of};
ghost use Rattle.vh_session.specs.Names.{content_of};
ghost use Rattle.vh_text.specs.Written.{line_text};
ghost use Rattle.vh_answers.specs.Outside.{voice};
ghost use Rattle.vh_answers.specs.Told.{IsTold};

use crate::line::Line;
use vh_files::{Failed, Say};
use vh_params::{NodeTable, ParamInfo, ParamTable, Reply};
use vh_session::Session;

/// What became of the words of an editor's script.
#[derive(Clone, Copy, Debug, PartialEq, Eq)]
pub struct EditorCounts {
    /// How many stand in the journal.
    pub accepted: u32,
    pub refused: u32,
}

/// What a rendering came to.
#[derive(Clone, Copy)]
pub struct Report<'a> {
    /// The blocks that were rendered.
    pub pieces: u32,
    /// The normalised values of all parameters at the end, node by node and within each by rising id.
    pub values: &'a [u32],
    /// How each node's controller shows its values, 0 or 1.
    pub modes: &'a [u32],
    /// One for each message, in order.
    pub replies: &'a [Reply],
    /// One for each editor of a live rendering.
    pub editors: &'a [EditorCounts],
}

ghost use Rattle.vh_answers.specs.Report.{setting_words, head_text, close_text, param_words, params_text, nodes_text, reply_words, replies_text, editor_words, editors_text, report_text, answer_of};

/// `frames L` or `pieces P`.
fn say_setting<Y: Say>(line: &mut Line, say: &mut Y, name: &[u8], value: u32) -> Result<(), Failed>
    requires { length name.now ≤ 6 }
    ensures { IsTold result (voice Y.Say say.old) (voice Y.Say say.new) (line_text (setting_words name.now value)) }
{
    line.begin(name);
    line.number(value);
    line.say(say)
}

/// `param NODE ID VALUE TEXT`, without the text where a controller is in its other mode.
fn say_param<Y: Say>(
    line: &mut Line,
    say: &mut Y,
    name: &[u8],
    table: &ParamTable,
    param: &ParamInfo,
    mode: u32,
    value: u32,
) -> Result<(), Failed>
    requires name { length name.now ≤ 32 }
    requires there { param_in (params_of table.now) param.now.id ≡ Some param.now }
    requires value { value ≤ 2 ^ 24 }
    ensures { IsTold result (voice Y.Say say.old) (voice Y.Say say.new) (line_text (param_words name.now mode param.now value)) }
{
    line.begin(b"param");
    line.word(name);
    line.number(param.id);
    line.number(value);
    if mode > 0 {
        return line.say(say);
    }
    line.value(table, param.id, value);
    line.say(say)
}

/// The lines of a node's parameters.
fn say_params<Y: Say>(
    line: &mut Line,
    say: &mut Y,
    name: &[u8],
    table: &ParamTable,
    mode: u32,
    values: &[u32],
) -> Result<(), Failed>
    requires name { length name.now ≤ 32 }
    requires values { All (λ value. value ≤ 2 ^ 24) values.now }
    requires few { length values.now ≤ length (params_of table.now) }
    ensures { IsTold result (voice Y.Say say.old) (voice Y.Say say.new) (params_text name.now mode (params_of table.now) values.now) }
{
    let params = table.params();
    for (place, &value) in values.iter().enumerate() {
        say_param(line, say, name, table, &params[place], mode, value)?;
    }
    Ok(())
}

/// The lines of all nodes' parameters.
fn say_nodes<Y: Say>(
    line: &mut Line,
    say: &mut Y,
    nodes: &NodeTable,
    values: &[u32],
    modes: &[u32],
) -> Result<(), Failed>
    requires values { All (λ value. value ≤ 2 ^ 24) values.now }
    requires modes { length modes.now ≡ length (nodes_of nodes.now) }
    ensures { IsTold result (voice Y.Say say.old) (voice Y.Say say.new) (nodes_text (nodes_of nodes.now) values.now modes.now) }
{
    let mut values = values;
    for node in 0..nodes.len() {
        let table = nodes.table(node);
        let (own, others) = values.split_at(table.params().len().min(values.len()));
        say_params(
            line,
            say,
            nodes.name(node).text(),
            table,
            modes[node as usize],
            own,
        )?;
        values = others;
    }
    Ok(())
}

/// `reply NODE SAMPLE W ..`
fn say_reply<Y: Say>(
    line: &mut Line,
    say: &mut Y,
    nodes: &NodeTable,
    reply: &Reply,
) -> Result<(), Failed>
    requires { reply.now.node < length (nodes_of nodes.now) }
    ensures { IsTold result (voice Y.Say say.old) (voice Y.Say say.new) (line_text (reply_words (nodes_of nodes.now) (answer_of reply.now))) }
{
    line.begin(b"reply");
    line.word(nodes.name(reply.node).text());
    line.number(reply.sample);
    for &word in reply.words.numbers() {
        line.number(word);
    }
    line.say(say)
}

/// The lines of all replies.
fn say_replies<Y: Say>(
    line: &mut Line,
    say: &mut Y,
    nodes: &NodeTable,
    replies: &[Reply],
) -> Result<(), Failed>
    requires { All (λ reply. reply.node < length (nodes_of nodes.now)) replies.now }
    ensures { IsTold result (voice Y.Say say.old) (voice Y.Say say.new) (replies_text (nodes_of nodes.now) (map answer_of replies.now)) }
{
    for reply in replies {
        say_reply(line, say, nodes, reply)?;
    }
    Ok(())
}

/// `editor N accepted A refused R`
fn say_editor<Y: Say>(
    line: &mut Line,
    say: &mut Y,
    number: u32,
    editor: EditorCounts,
) -> Result<(), Failed>
    ensures { IsTold result (voice Y.Say say.old) (voice Y.Say say.new) (line_text (editor_words number editor)) }
{
    line.begin(b"editor");
    line.number(number);
    line.word(b"accepted");
    line.number(editor.accepted);
    line.word(b"refused");
    line.number(editor.refused);
    line.say(say)
}

/// The lines of all editors.
fn say_editors<Y: Say>(line: &mut Line, say: &mut Y, editors: &[EditorCounts]) -> Result<(), Failed>
    requires { length editors.now < 2 ^ 32 }
    ensures { IsTold result (voice Y.Say say.old) (voice Y.Say say.new) (editors_text 0 editors.now) }
{
    for (number, &editor) in editors.iter().enumerate() {
        say_editor(line, say, number as u32, editor)?;
    }
    Ok(())
}

/// The lines before those of the parameters.
fn say_head<Y: Say>(line: &mut Line, say: &mut Y, frames: u32, pieces: u32) -> Result<(), Failed>
    ensures { IsTold result (voice Y.Say say.old) (voice Y.Say say.new) (head_text frames pieces) }
{
    line.begin(b"vsthost report 1");
    line.say(say)?;
    say_setting(line, say, b"frames", frames)?;
    say_setting(line, say, b"pieces", pieces)
}

/// The line behind all others.
fn say_close<Y: Say>(line: &mut Line, say: &mut Y) -> Result<(), Failed>
    ensures { IsTold result (voice Y.Say say.old) (voice Y.Say say.new) close_text }
{
    line.begin(b"close");
    line.say(say)
}

impl Report<'_> {
    /// Says the report on a session. Where a write fails, a front part of it was said.
    pub fn say<Y: Say>(&self, session: &Session, line: &mut Line, say: &mut Y) -> Result<(), Failed>
        requires values { All (λ value. value ≤ 2 ^ 24) self.now.values.now }
        requires modes { length self.now.modes.now ≡ length (nodes_of session.now.nodes) }
        requires replies { All (λ reply. reply.node < length (nodes_of session.now.nodes)) self.now.replies.now }
        requires editors { length self.now.editors.now < 2 ^ 32 }
        ensures { IsTold result (voice Y.Say say.old) (voice Y.Say say.new)
            (report_text (content_of session.now) self.now.values.now self.now.modes.now self.now.pieces (map answer_of self.now.replies.now) self.now.editors.now) }
    {
        say_head(line, say, session.length, self.pieces)?;
        say_nodes(line, say, &session.nodes, self.values, self.modes)?;
        say_replies(line, say, &session.nodes, self.replies)?;
        say_editors(line, say, self.editors)?;
        say_close(line, say)
    }
}
