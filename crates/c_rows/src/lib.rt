// Rows and the two iterators of the reader over words. The exported functions of these names pass on what these answer.
#![tactic(auto)]

ghost use Rattle.std.specs.Prelude.{◌≡◌, ℕ, List, [], ◌∷◌};
ghost use Rattle.std.proofs.lemmas.List.Edits.{sets};
ghost use Rattle.raw.specs.Rows.{file_words_lem, function_words_lem};
ghost use Rattle.symcache.specs.Answers.{maybe_answer};
ghost use Rattle.c_reading.specs.Reading.{filled, moved, answered, steps_to, row_answer_words};
ghost use Rattle.c_reading.specs.Reading.{function_call, file_call, cursor_index, function_next, functions_call, file_next, files_call};

use c_reading::{put_file, put_function};
use lookup::{Files, Functions, NextFile, NextFunction};
use raw::{File, Function};
use slices::{put, word};
use symcache::ErrorKind;

// What is handed out as words after the word that says whether there is one.
trait Row: Copy {
    ghost words: { Self → List ℕ };

    // Its words, from word 1 on.
    fn put(self, row: &mut [u32])
        ensures { row.new ≡ sets row.old 1 (words self) };
}

impl Row for Function {
    ghost words = { function_words_lem };

    fn put(self, row: &mut [u32]) {
        put_function(row, 1, self);
    }
}

impl Row for File {
    ghost words = { file_words_lem };

    fn put(self, row: &mut [u32]) {
        put_file(row, 1, self);
    }
}

impl Row for NextFunction {
    ghost words = { λ x. x.index ∷ function_words_lem x.function };

    fn put(self, row: &mut [u32]) {
        put(row, 1, self.index);
        put_function(row, 2, self.function);
    }
}

impl Row for NextFile {
    ghost words = { λ x. x.index ∷ file_words_lem x.file };

    fn put(self, row: &mut [u32]) {
        put(row, 1, self.index);
        put_file(row, 2, self.file);
    }
}

// A row with the place where the reading goes on.
trait Step: Row {
    ghost goes_on: { Self → List ℕ };

    // The index from which on to look.
    fn cursor(self) -> u32
        ensures { goes_on self ≡ result ∷ [] };
}

impl Step for NextFunction {
    ghost goes_on = { function_next };

    fn cursor(self) -> u32 {
        self.next.function_idx
    }
}

impl Step for NextFile {
    ghost goes_on = { file_next };

    fn cursor(self) -> u32 {
        self.next.file_idx
    }
}

// Whether there is a row, and its words.
#[tactic(auto, unfolding(c_reading::specs::Reading::answered))]
fn put_got<T: Row>(row: &mut [u32], got: Result<Option<T>, ErrorKind>) -> u32
    ensures { filled result row.new ≡ answered (row_answer_words T.words) (maybe_answer got) row.old }
{
    match got {
        Ok(Some(x)) => {
            put(row, 0, 1);
            x.put(row);
            0
        }
        Ok(None) => {
            put(row, 0, 0);
            0
        }
        Err(kind) => kind.number(),
    }
}

// The same of a step, and where the reading goes on.
#[tactic(auto, unfolding(c_reading::specs::Reading::answered, c_reading::specs::Reading::steps_to))]
fn put_step<T: Step>(cursor: &mut [u32], row: &mut [u32], step: Result<Option<T>, ErrorKind>) -> u32
    ensures { moved result cursor.new row.new
        ≡ steps_to T.goes_on (λ x. 1 ∷ T.words x) (maybe_answer step) cursor.old row.old }
{
    if let Ok(Some(x)) = step {
        put(cursor, 0, x.cursor());
    }
    put_got(row, step)
}

#[tactic(auto, unfolding(c_reading::specs::Reading::function_call))]
pub fn get_function(bytes: &[u8], function_idx: u32, row: &mut [u32]) -> u32
    ensures { filled result row.new ≡ function_call bytes.now function_idx row.old }
{
    put_got(row, lookup::get_function(bytes, function_idx))
}

#[tactic(auto, unfolding(c_reading::specs::Reading::file_call))]
pub fn get_file(bytes: &[u8], file_idx: u32, row: &mut [u32]) -> u32
    ensures { filled result row.new ≡ file_call bytes.now file_idx row.old }
{
    put_got(row, lookup::get_file(bytes, file_idx))
}

// The index from which on to look; a cursor of no words is at the end.
#[tactic(auto, unfolding(c_reading::specs::Reading::cursor_index))]
fn index_of(cursor: &[u32]) -> u32
    ensures { result ≡ cursor_index cursor.now }
{
    if cursor.len() == 0 {
        return u32::MAX;
    }
    word(cursor, 0)
}

// The next function that has an entry, from the cursor on. (This and `files_next` stay two, as the exported functions that call them.)
#[tactic(auto, unfolding(c_reading::specs::Reading::functions_call))]
pub fn functions_next(bytes: &[u8], cursor: &mut [u32], row: &mut [u32]) -> u32
    ensures { moved result cursor.new row.new ≡ functions_call bytes.now cursor.old row.old }
{
    let functions = Functions {
        function_idx: index_of(cursor),
    };
    put_step(cursor, row, functions.next(bytes))
}

// The next file, from the cursor on.
#[tactic(auto, unfolding(c_reading::specs::Reading::files_call))]
pub fn files_next(bytes: &[u8], cursor: &mut [u32], row: &mut [u32]) -> u32
    ensures { moved result cursor.new row.new ≡ files_call bytes.now cursor.old row.old }
{
    let files = Files {
        file_idx: index_of(cursor),
    };
    put_step(cursor, row, files.next(bytes))
}
