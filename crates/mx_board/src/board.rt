//! The data words, the console and the input.
ghost use Rattle.std.specs.Prelude.{◌≡◌, ◌≢◌, ◌<◌, ◌≤◌, true, false, length, IfOk, option_map, slice_index, cond, suc};
ghost use Rattle.std.specs.Option.{option_copied};
ghost use Rattle.mx_isa.specs.declared.board.TheConstants.{DATA_END, CONSOLE, MAX_DATA_WORDS};
ghost use Rattle.mx_io.specs.declared.limits.TheConstants.{MAX_FILE_BYTES};
ghost use Rattle.mx_board.specs.Contents.{bytes_in};
ghost use Rattle.mx_board.specs.Data.{board, words_of, words_at_start};
ghost use Rattle.mx_isa.specs.UserBus.{from_input};

use mx_io::Memory;
use mx_isa::{CONSOLE, DATA_BASE, DATA_END, INPUT};
use std::alloc::{AllocError, Global};
use std::marker::Model;

/// Data words 0 to 65535, and the input, of which some bytes are taken. Words 0 to 254 are the
/// system's, word 255 is the console and stays 0, and the others are user data (this project's profile).
#[derive(Drop)]
pub struct Board {
    words: Vec<u32>,
    input: Option<Vec<u8>>,
    taken: u32,
}

impl Model for Board {
    ghost use Rattle.std.specs.Prelude.{option_map};
    ghost use Rattle.mx_board.specs.Contents.{Contents, IsBoard};

    ghost Value = { Contents };

    ghost view = { λ b. record { words = b.words.items; input = option_map (λ v. v.items) b.input; taken = b.taken } };

    ghost invariant = { λ b. IsBoard (record { words = b.words.items; input = option_map (λ v. v.items) b.input; taken = b.taken }) };
}

// The words from 256 on, and 0 elsewhere.
fn starting_words(alloc: Global, user_data: &[u32]) -> Result<Vec<u32>, AllocError>
    requires { length user_data.now ≤ MAX_DATA_WORDS }
    ensures count { IfOk result (λ v. length v.items ≡ DATA_END) }
    ensures console { IfOk result (λ v. slice_index v.items CONSOLE ≡ 0) }
    ensures words { IfOk result (λ v. slice_index v.items ≡ words_at_start user_data.now) }
{
    let mut words = Vec::new(alloc);
    words.resize(DATA_BASE as usize, 0)?;
    words.extend_from_slice(user_data)?;
    words.resize(DATA_END as usize, 0)?;
    Ok(words)
}

// The input, in a buffer of its own.
fn kept_input(alloc: Global, input: Option<&[u8]>) -> Result<Option<Vec<u8>>, AllocError>
    ensures { IfOk result (λ kept. option_map (λ v. v.items) kept ≡ option_copied input.entry) }
{
    match input {
        Some(bytes) => Ok(Some(Vec::from_slice(alloc, bytes)?)),
        None => Ok(None),
    }
}

impl Board {
    /// A board with these words from 256 on, and 0 elsewhere, and with this input, of which no byte is
    /// taken. At most 65,280 words, and 1,048,576 bytes of input.
    pub fn new(alloc: Global, user_data: &[u32], input: Option<&[u8]>) -> Result<Board, Memory>
        requires words { length user_data.now ≤ MAX_DATA_WORDS }
        requires bytes { bytes_in (option_copied input) ≤ MAX_FILE_BYTES }
        ensures words { IfOk result (λ b. words_of b ≡ words_at_start user_data.now) }
        ensures input { IfOk result (λ b. b.input ≡ option_copied input.entry) }
        ensures taken { IfOk result (λ b. b.taken ≡ 0) }
    {
        let words = starting_words(alloc, user_data).map_err(|_| Memory)?;
        let input = kept_input(alloc, input).map_err(|_| Memory)?;
        Ok(Board {
            words,
            input,
            taken: 0,
        })
    }

    /// The same board, in memory of its own.
    pub fn copied(&self, alloc: Global) -> Result<Board, Memory>
        ensures { IfOk result (λ b. b ≡ self.now) }
    {
        let words = Vec::from_slice(alloc, &self.words).map_err(|_| Memory)?;
        let input = kept_input(alloc, self.input.as_deref()).map_err(|_| Memory)?;
        Ok(Board {
            words,
            input,
            taken: self.taken,
        })
    }

    /// Whether another board has the same words, and as many of its input's bytes are taken.
    pub fn has_data_of(&self, other: &Board) -> bool
        ensures same { result ≡ true → self.now.words ≡ other.now.words × self.now.taken ≡ other.now.taken }
        ensures differs { result ≡ false → self.now.words ≡ other.now.words → self.now.taken ≢ other.now.taken }
    {
        self.taken == other.taken && self.words == other.words
    }

    /// What a load finds. A user-mode load from 254 takes a byte of the input, if there is one.
    pub fn load(&mut self, address: u32, user: bool) -> u32
        ensures word { result ≡ ((board user self.old.input).load (words_of self.old) self.old.taken address).word }
        ensures state { self.new ≡ record self.old {
          taken =
              cond ((board user self.old.input).load (words_of self.old) self.old.taken address).takes (suc self.old.taken) self.old.taken;
        } }
    {
        if address >= DATA_BASE || !user {
            return self.found(address);
        }
        if address == INPUT {
            return self.take();
        }
        0
    }

    // A word of the memory; the console reads 0, and so does what is beyond the memory.
    fn found(&self, address: u32) -> u32
        ensures word { result ≡ words_of self.now address }
        ensures console { address ≡ CONSOLE → result ≡ 0 }
        ensures beyond { DATA_END ≤ address → result ≡ 0 }
    {
        if address < DATA_END {
            self.words[address as usize]
        } else {
            0
        }
    }

    // The next byte of the input.
    fn take(&mut self) -> u32
        ensures word { result ≡ (from_input self.old.input self.old.taken).word }
        ensures state { self.new ≡ record self.old { taken = cond (from_input self.old.input self.old.taken).takes (suc self.old.taken) self.old.taken } }
    {
        match &self.input {
            Some(bytes) => {
                let at = self.taken as usize;
                if at < bytes.len() {
                    let byte = bytes[at];
                    self.taken += 1;
                    u32::from(byte)
                } else {
                    u32::MAX
                }
            }
            None => 0,
        }
    }

    /// Takes a store, and answers the byte that went to the console.
    pub fn store(&mut self, address: u32, word: u32, user: bool) -> Option<u8>
        ensures words { words_of self.new ≡ (board user self.old.input).store (words_of self.old) address word }
        ensures input { self.new.input ≡ self.old.input }
        ensures taken { self.new.taken ≡ self.old.taken }
        ensures byte { result ≡ (board user self.old.input).byte address word }
    {
        if address == CONSOLE {
            return Some((word % 256) as u8);
        }
        if address < DATA_END {
            if address >= DATA_BASE {
                self.words[address as usize] = word;
            } else if !user {
                self.words[address as usize] = word;
            }
        }
        None
    }

    /// The word at an address below 65536, as it stands.
    pub fn word(&self, address: u32) -> u32
        requires { address < DATA_END }
        ensures { result ≡ words_of self.now address }
    {
        self.words[address as usize]
    }

    /// The number of input bytes that were taken.
    pub fn inputs(&self) -> u32
        ensures { result ≡ self.now.taken }
    {
        self.taken
    }
}
