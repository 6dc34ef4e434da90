//! `PromptState`: the state of a prompt: the node that it asks, the largest pass that it was given, and
//! the lines that were entered; for `shell`.
ghost use Rattle.std.specs.Prelude.{◌≡◌, ◌++◌, [], ◌∷◌, max, OnOk, OnErr};

use crate::calling::Asker;
use craq_names::{NodeId, Pass};
use std::alloc::{AllocError, Global};

/// The state of a prompt.
#[derive(Drop)]
pub struct PromptState<'a> {
    /// The node that is asked, with the largest pass that a reply gave so far.
    asker: Asker<'a>,
    /// The lines that were entered, in order.
    lines: Vec<String>,
}

impl<'a> PromptState<'a> {
    /// Makes a prompt without lines. Takes no memory.
    pub fn new(alloc: Global, asker: &Asker<'a>) -> Self
        ensures asker { result.asker ≡ asker.now }
        ensures lines { result.lines.items ≡ [] }
    {
        PromptState {
            asker: asker.same(),
            lines: Vec::new(alloc),
        }
    }

    /// Returns the node that is asked, and the pass that is shown.
    pub fn asker(&self) -> Asker<'a>
        ensures { result ≡ self.now.asker }
    {
        self.asker.same()
    }

    /// Sets the node that is asked from now on.
    pub fn ask_node(&mut self, node: NodeId)
        ensures asker { self.new.asker ≡ record self.old.asker { node = node } }
        ensures lines { self.new.lines ≡ self.old.lines }
    {
        self.asker.node = node;
    }

    /// Notes the pass of a reply. The larger one is shown from now on.
    pub fn note_pass(&mut self, pass: Pass)
        ensures asker { self.new.asker ≡ record self.old.asker { pass = max self.old.asker.pass pass } }
        ensures lines { self.new.lines ≡ self.old.lines }
    {
        self.asker.pass = self.asker.pass.join(pass);
    }

    /// Keeps a line that was entered. Fails only when out of memory; nothing is kept then.
    pub fn keep(&mut self, line: String) -> Result<(), AllocError>
        ensures asker { self.new.asker ≡ self.old.asker }
        ensures ok { OnOk result (self.new.lines.items ≡ self.old.lines.items ++ line ∷ []) }
        ensures err { OnErr result (self.new.lines.items ≡ self.old.lines.items) }
    {
        self.lines.push(line)?;
        Ok(())
    }

    /// Returns the lines that were entered, in order.
    pub fn lines(&self) -> &[String]
        ensures { result.now ≡ self.now.lines.items }
    {
        self.lines.as_slice()
    }
}
