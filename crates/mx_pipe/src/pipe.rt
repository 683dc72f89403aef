//! The pipeline.
ghost use Rattle.std.specs.Prelude.{◌≡◌, ◌≤◌, Bool, List, IfOk, [], length};
ghost use Rattle.mx_isa.specs.declared.board.TheConstants.{CODE_BASE};
ghost use Rattle.mx_board.specs.Contents.{IsInput};
ghost use Rattle.mx_turn.specs.Program.{Program, image_program, image_under};
ghost use Rattle.mx_pipe.specs.Kept.{StandsFor};

use crate::Latch;
use mx_board::Board;
use mx_code::Image;
use mx_icache::FetchCache;
use mx_io::Memory;
use mx_isa::CODE_BASE;
use mx_pcchain::{Chain, Fetched, Psw};
use mx_turn::{Counts, Decoded, Latches, SHIPPED, fetch_of};
use std::alloc::Global;

/// Whether the cache has been asked for the fetch of the coming turn, and the stalled cycles that are left where that
/// fetch missed.
#[derive(Clone, Copy, Debug, PartialEq, Eq)]
pub enum Wait {
    NotAsked,
    Missed(u8),
}

/// The machine by five latches, with any cache.
///
/// The register file is one turn behind: a word that was in MEM in the last completed turn is written to it when it is in
/// WB. Until then readers find its number in the latch.
#[derive(Drop)]
pub struct Pipe<C> {
    /// The words of the last completed turn, with their squashed marks as they now stand; empty where there is none, or
    /// an interrupt killed it.
    pub fetch: Latch,
    pub rf: Latch,
    pub alu: Latch,
    pub mem: Latch,
    pub wb: Latch,
    /// The registers as the last completed turn began.
    pub file: [u32; 32],
    pub md: u32,
    /// What the coming turn fetches.
    pub next: Fetched,
    pub wait: Wait,
    /// An interrupt request is latched.
    pub asked: bool,
    pub halted: bool,
    pub psw: Psw,
    pub chain: Chain,
    pub counts: Counts,
    /// What the last completed turn shows.
    pub shown: Latches,
    pub board: Board,
    pub cache: C,
    /// The words of the image and of the handler.
    pub code: Vec<u32>,
    pub handler: Vec<u32>,
    /// The same, decoded.
    pub decoded: Decoded,
}

// The words of a list, in a list of their own.
fn kept(alloc: Global, words: &[u32]) -> Result<Vec<u32>, Memory>
    ensures { IfOk result (λ v. v.items ≡ words.now) }
{
    match Vec::from_slice(alloc, words) {
        Ok(words) => Ok(words),
        Err(_) => Err(Memory),
    }
}

impl<C: FetchCache> Pipe<C> {
    /// The machine before its first cycle, with the shipped handler, an empty cache, and an input or none. At most
    /// 1,048,576 bytes of input.
    pub fn new(
        alloc: Global,
        image: &Image,
        input: Option<&[u8]>,
        cache: C,
    ) -> Result<Pipe<C>, Memory>
        requires bytes { IsInput input }
        requires empty { C.holds cache [] }
        ensures { IfOk result (λ t. StandsFor C.holds t (image_program image.now input.entry) []) }
    {
        Pipe::with(alloc, image, &SHIPPED, input, cache)
    }

    /// The machine before its first cycle, with another handler of at most 4,096 words, which stand from code address 0
    /// on; the rest as for `new`.
    pub fn with(
        alloc: Global,
        image: &Image,
        handler: &[u32],
        input: Option<&[u8]>,
        cache: C,
    ) -> Result<Pipe<C>, Memory>
        requires words { length handler.now ≤ CODE_BASE }
        requires bytes { IsInput input }
        requires empty { C.holds cache [] }
        ensures { IfOk result (λ t. StandsFor C.holds t (image_under handler.now image.now input.entry) []) }
    {
        let decoded = Decoded::new(alloc, handler, &image.code)?;
        let code = kept(alloc, &image.code)?;
        let handler = kept(alloc, handler)?;
        let board = Board::new(alloc, &image.user_data, input)?;
        Ok(Pipe {
            fetch: Latch::cleared(None),
            rf: Latch::cleared(None),
            alu: Latch::cleared(None),
            mem: Latch::cleared(None),
            wb: Latch::cleared(None),
            file: [0; 32],
            md: 0,
            next: fetch_of(CODE_BASE),
            wait: Wait::NotAsked,
            asked: false,
            halted: false,
            psw: Psw::start(),
            chain: Chain::new(),
            counts: Counts::none(),
            shown: Latches::before_turns(),
            board,
            cache,
            code,
            handler,
            decoded,
        })
    }

    /// The same machine in memory of its own, with an equal cache.
    pub fn copied(&self, alloc: Global, cache: C) -> Result<Pipe<C>, Memory>
        requires { cache ≡ self.now.cache }
        ensures { IfOk result (λ t. (p : Program) (h : List Bool) → StandsFor C.holds self.now p h → StandsFor C.holds t p h) }
    {
        let board = self.board.copied(alloc)?;
        let code = kept(alloc, &self.code)?;
        let handler = kept(alloc, &self.handler)?;
        let decoded = self.decoded.copied(alloc)?;
        Ok(Pipe {
            fetch: self.fetch,
            rf: self.rf,
            alu: self.alu,
            mem: self.mem,
            wb: self.wb,
            file: self.file,
            md: self.md,
            next: self.next,
            wait: self.wait,
            asked: self.asked,
            halted: self.halted,
            psw: self.psw,
            chain: self.chain,
            counts: self.counts,
            shown: self.shown,
            board,
            cache,
            code,
            handler,
            decoded,
        })
    }
}
