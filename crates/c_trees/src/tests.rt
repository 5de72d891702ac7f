use super::*;
use c_words::record::store;
use memory::State;

// A function of four bytes at 16, named `main`, with one line row, its only one.
const FUNCTIONS64: [u64; 2] = [16, 4];

const FUNCTIONS32: [u32; 8] = [0, 0, 0, 0, 4, 0, 0, 1];

const LINES64: [u64; 3] = [16, 4, 7];

const LINES32: [u32; 14] = [1, 4, 6, 0, 0, 0, 0, 0, 0, 0, 0, 0, 0, 0];

// One record after the other: the refusal that was given, one line row too few, the tree.
#[test]
fn process_unpacked_passes_on_refuses_and_converts(rt: HostRuntime) {
    let mut string_bytes = [0u8; 256];
    let mut strings = [0u32; 256];
    let mut files = [0u32; 256];
    let mut functions = [0u32; 256];
    let mut call_locations = [0u32; 256];
    let mut ranges = [0u32; 256];
    let mut tables = Tables {
        state: State::unused(),
        string_bytes: &mut string_bytes,
        strings: &mut strings,
        files: &mut files,
        functions: &mut functions,
        call_locations: &mut call_locations,
        ranges: &mut ranges,
    };
    let mut record = [0u32; 20];
    store(
        &mut record,
        memory::begin([0; 32], 0, false, false, &mut tables),
    );
    let rows = FunctionRows {
        columns64: &FUNCTIONS64,
        columns32: &FUNCTIONS32,
    };
    for (refused, lines, want) in [
        (Err(Refusal::Closed), 1, Err(Refusal::Closed)),
        (Ok(()), 2, Err(Refusal::ScratchTooSmall)),
        (Ok(()), 1, Ok(())),
    ] {
        let mut scratch = [0u32; 8];
        let mut unpacked64 = LINES64;
        let mut unpacked32 = LINES32;
        let answer = process_unpacked(
            refused,
            lines,
            &mut record,
            &mut tables,
            &mut scratch,
            &mut unpacked64,
            &mut unpacked32,
            rows,
            b"mainmain.c",
        );
        assert_eq!(rt; code_of(answer), code_of(want));
        let accepted = code_of(want) == 0;
        assert_eq!(rt; unpacked64 == [0; 3], accepted);
        assert_eq!(rt; unpacked32 == [0; 14], accepted);
        assert_eq!(rt; load(&record).state.functions, u32::from(accepted));
        assert_eq!(rt; load(&record).state.files, u32::from(accepted));
        assert_eq!(rt; load(&record).state.ranges, 2 * u32::from(accepted));
    }
}
