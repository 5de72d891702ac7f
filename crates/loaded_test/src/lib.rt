// A row of another crate's own: raw's `Loaded` asks only how it is read where its bytes lie in the slice, and how it is written.
#![tactic(auto)]

ghost use Rattle.std.specs.Prelude.{◌≡◌, ℕ, ◌+◌, ◌≤◌, List, length};
ghost use Rattle.std.proofs.lemmas.List.Edits.{sets};
ghost use Rattle.std.proofs.Common.{lit≤};
ghost use Rattle.slices.specs.Bytes.{le_at, bytes_at};
ghost use Rattle.loaded_test.specs.Pairs.{pair_bytes, pair_at, pair_cut};

use raw::{Loaded, Stored, VersionInfo};
use slices::load_u32;

// Two numbers. 8 bytes.
#[derive(Debug, Clone, Copy, PartialEq, Eq)]
pub struct Pair {
    pub first: u32,
    pub second: u32,
}

#[tactic(auto, unfolding(crate::specs::Pairs::pair_bytes, crate::specs::Pairs::pair_at, raw::specs::Rows::version_info_bytes))]
impl Loaded for Pair {
    const SIZE: usize = 8;

    ghost SIZE = { 8 };

    ghost bytes = { pair_bytes };

    ghost stands = { pair_at };

    ghost size_is = { lit≤ tt };

    ghost cut = { pair_cut };

    fn load(s: &[u8], at: usize) -> Pair {
        Pair {
            first: load_u32(s, at),
            second: load_u32(s, at + 4),
        }
    }

    fn write(self, s: &mut [u8], at: usize) {
        let row = VersionInfo {
            magic: self.first,
            version: self.second,
        };
        row.write(s, at);
    }
}

#[cfg(test)]
mod tests;
