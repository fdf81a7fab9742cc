//! What the cases are about.

use crate::shown::Page;
use crate::texts::MOST;
use crate::trees::{cuts, refusals};
use crate::{kernels, messages, names, needs, tokens, trees, types};
use std::alloc::{AllocError, Global};

/// What is made of the texts of a file.
#[derive(Clone, Copy)]
pub enum Phase {
    Tokens,
    Trees,
    Refusals,
    Cuts,
    Ends,
    Names,
    Types,
    NodeTypes,
    Kernels,
    Sizes,
    Needs,
    Apart,
    Messages,
}

impl Phase {
    /// In the order of the report.
    pub const ALL: [Phase; 13] = [
        Phase::Tokens,
        Phase::Trees,
        Phase::Refusals,
        Phase::Cuts,
        Phase::Ends,
        Phase::Names,
        Phase::Types,
        Phase::NodeTypes,
        Phase::Kernels,
        Phase::Sizes,
        Phase::Needs,
        Phase::Apart,
        Phase::Messages,
    ];

    /// The name of the file that its cases stand in.
    pub fn file(self) -> &'static str {
        match self {
            Phase::Tokens => "tokens.txt",
            Phase::Trees => "trees.txt",
            Phase::Refusals => "refusals.txt",
            Phase::Cuts => "cuts.txt",
            Phase::Ends => "ends.txt",
            Phase::Names => "names.txt",
            Phase::Types => "types.txt",
            Phase::NodeTypes => "node_types.txt",
            Phase::Kernels => "kernels.txt",
            Phase::Sizes => "sizes.txt",
            Phase::Needs => "needs.txt",
            Phase::Apart => "apart.txt",
            Phase::Messages => "messages.txt",
        }
    }

    /// What comes of a text.
    pub fn answer(self, alloc: Global, text: &[u8]) -> Result<String, AllocError> {
        let mut page = Page::new(alloc);
        self.put_answer(&mut page, alloc, text);
        page.text()
    }

    /// Puts what comes of a text.
    fn put_answer(self, page: &mut Page, alloc: Global, text: &[u8]) {
        if text.len() > MOST {
            return page.put("too many bytes");
        }
        match self {
            Phase::Tokens => tokens::put_lexed(page, alloc, text),
            Phase::Trees => trees::put_parsed(page, alloc, text),
            Phase::Refusals => refusals::put_refusal(page, alloc, text),
            Phase::Cuts => cuts::put_programs(page, alloc, text),
            Phase::Ends => trees::put_end(page, text),
            Phase::Names => names::put_meanings(page, alloc, text),
            Phase::Types => types::put_verdict(page, alloc, text),
            Phase::NodeTypes => types::put_types(page, alloc, text),
            Phase::Kernels => kernels::put_flattened(page, alloc, text),
            Phase::Sizes => kernels::put_size(page, alloc, text),
            Phase::Needs | Phase::Apart => needs::put_needs(page, alloc, text),
            Phase::Messages => messages::put_message(page, text),
        }
    }
}
