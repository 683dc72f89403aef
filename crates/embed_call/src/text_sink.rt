//! Output in memory, of any length.
ghost use Rattle.std.specs.Prelude.{◌≡◌, [], Some, MatchOption};
ghost use Rattle.mx_io.specs.Counts.{Rose};

use mx_io::{Sink, SinkFault};
use std::alloc::Global;

/// A sink that keeps all that it takes. A put fails only where memory runs out.
#[derive(Drop)]
pub struct TextSink {
    bytes: Vec<u8>,
    faults: u64,
}

impl TextSink {
    ghost use Rattle.embed_call.specs.TextSink.{written_in, faults_of};

    /// A sink that has taken nothing, and takes its memory from `alloc`.
    pub fn new(alloc: Global) -> TextSink
        ensures written { written_in result ≡ [] }
        ensures faults { faults_of result ≡ 0 }
    {
        TextSink {
            bytes: Vec::new(alloc),
            faults: 0,
        }
    }

    /// All that it took; None where a put failed.
    pub fn into_bytes(self) -> Option<Vec<u8>>
        ensures { MatchOption result (Rose 0 (faults_of self)) (λ v. (v.items ≡ written_in self) × (faults_of self ≡ 0)) }
    {
        if self.faults == 0 {
            Some(self.bytes)
        } else {
            None
        }
    }
}

impl Sink for TextSink {
    ghost use Rattle.embed_call.specs.TextSink.{written_in, faults_of};

    ghost written = { written_in };

    ghost faults = { faults_of };

    fn put(&mut self, bytes: &[u8]) -> Result<usize, SinkFault> {
        match self.bytes.extend_from_slice(bytes) {
            Ok(()) => Ok(bytes.len()),
            Err(_) => {
                self.faults = self.faults.saturating_add(1);
                Err(SinkFault::Failed)
            }
        }
    }
}
