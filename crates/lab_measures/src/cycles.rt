//! The cycles in which requests come.
ghost use Rattle.std.specs.Prelude.{◌≡◌, ◌<◌, ◌≤◌, ◌^◌, IfOk, length};
ghost use Rattle.lab_measures.specs.Spans.{cycles_in, apart_in, pairs_of};

use std::alloc::{AllocError, Global};

/// Cycles from one on to another, each so many behind the one before.
#[derive(Clone, Copy)]
pub struct Span {
    pub from: u32,
    /// No cycle of the span is behind this one.
    pub to: u32,
    pub step: u32,
}

impl Span {
    // How many cycles there are from its first to its last, both included.
    fn apart(self) -> u64
        ensures { result ≡ apart_in self }
    {
        (u64::from(self.to) + 1).saturating_sub(u64::from(self.from))
    }

    /// How many cycles it has.
    pub fn count(self) -> u64
        ensures count { 0 < self.step → result ≡ length (cycles_in self) }
        ensures within { result ≤ 2 ^ 32 }
    {
        if self.from > self.to {
            return 0;
        }
        let behind = (self.to - self.from).checked_div(self.step).unwrap_or(0);
        u64::from(behind) + 1
    }

    /// How many pairs of its cycles there are.
    pub fn pairs(self) -> u64
        ensures { 0 < self.step → result ≡ pairs_of (length (cycles_in self)) }
    {
        let count = self.count();
        count.saturating_mul(count.saturating_sub(1)) / 2
    }
}

/// The cycles of a span, whose step is not 0, in order.
pub fn cycles_in(alloc: Global, span: Span) -> Result<Vec<u32>, AllocError>
    requires { 0 < span.step }
    ensures { IfOk result (λ cycles. cycles.items ≡ cycles_in span) }
{
    let mut cycles = Vec::new(alloc);
    for behind in 0..span.apart() {
        if behind % u64::from(span.step) == 0 {
            cycles.push((u64::from(span.from) + behind) as u32)?;
        }
    }
    Ok(cycles)
}
