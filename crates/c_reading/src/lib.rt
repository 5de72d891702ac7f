// Rows of a file as words. The definitions of the C calls of the reader stand in specs/: Reading.
#![tactic(auto)]

ghost use Rattle.std.specs.Prelude.{◌≡◌};
ghost use Rattle.std.proofs.lemmas.List.Edits.{sets};
ghost use Rattle.raw.specs.Rows.{file_words_lem, function_words_lem};

use raw::{File, Function};
use slices::put;

// Words from word k on, as far as there is room.
fn put_words(row: &mut [u32], k: u32, words: &[u32])
    ensures { row.new ≡ sets row.old k words.now }
{
    for (i, v) in words.iter().enumerate() {
        put(row, k as usize + i, *v);
    }
}

// The six texts of a file, from word k on.
pub fn put_file(row: &mut [u32], k: u32, f: File)
    ensures { row.new ≡ sets row.old k (file_words_lem f) }
{
    let words = [
        f.comp_dir_offset,
        f.directory_offset,
        f.name_offset,
        f.srcsrv_name_offset,
        f.srcsrv_dir_offset,
        f.srcsrv_revision_offset,
    ];
    put_words(row, k, &words);
}

// The words of a function, from word k on.
pub fn put_function(row: &mut [u32], k: u32, f: Function)
    ensures { row.new ≡ sets row.old k (function_words_lem f) }
{
    let words = [f.name_offset, f.comp_dir_offset, f.entry_pc, f.lang];
    put_words(row, k, &words);
}
