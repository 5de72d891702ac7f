// The reader and the lookup. The bytes are lent at each call; between calls there are words.
ghost use Rattle.std.specs.Prelude.{◌≡◌};
ghost use Rattle.c_reading.specs.Reading.{filled, moved, parse_call, open_call, find_call, walk_call, lookup_call, next_call, string_call, name_call};
ghost use Rattle.c_reading.specs.Reading.{function_call, file_call, functions_call, files_call};

// Reads a file: 1 to 11, or 0 and the words of the cache. 10 stores the expected and the found count.
#[unsafe(no_mangle)]
pub extern "C" fn symcache_parse(bytes: &[u8], cache: &mut [u64]) -> u32
    ensures { filled result cache.new ≡ parse_call bytes.now cache.old }
{
    c_open::parse(bytes, cache)
}

// Reads a file to look addresses up in it: the same, and 12.
#[unsafe(no_mangle)]
pub extern "C" fn symcache_open(bytes: &[u8], cache: &mut [u64]) -> u32
    ensures { filled result cache.new ≡ open_call bytes.now cache.old }
{
    c_open::open(bytes, cache)
}

// The index of the source location that an address belongs to, or MAX.
#[unsafe(no_mangle)]
pub extern "C" fn symcache_find(bytes: &[u8], cache: &[u64], addr: u64) -> u32
    ensures { result ≡ find_call bytes.now cache.now addr }
{
    c_lookup::find(bytes, cache, addr)
}

// The walk of the frames of an address, in a file that was opened: the index at which it begins, or MAX.
#[unsafe(no_mangle)]
pub extern "C" fn symcache_walk(bytes: &[u8], cache: &[u64], addr: u64, cursor: &mut [u32]) -> u32
    ensures { filled result cursor.new ≡ walk_call bytes.now cache.now addr cursor.old }
{
    c_lookup::walk(bytes, cache, addr, cursor)
}

// Looks an address up: 1 to 12, or 0 and the walk of its frames.
#[unsafe(no_mangle)]
pub extern "C" fn symcache_lookup(bytes: &[u8], addr: u64, cursor: &mut [u32]) -> u32
    ensures { filled result cursor.new ≡ lookup_call bytes.now addr cursor.old }
{
    c_lookup::lookup(bytes, addr, cursor)
}

// The next frame of a walk, and the walk after it; or its end.
#[unsafe(no_mangle)]
pub extern "C" fn symcache_next(bytes: &[u8], cursor: &mut [u32], frame: &mut [u32]) -> u32
    ensures { moved result cursor.new frame.new ≡ next_call bytes.now cursor.old frame.old }
{
    c_lookup::next(bytes, cursor, frame)
}

// Resolves a string reference: 1 to 11, or 0 and where the text lies.
#[unsafe(no_mangle)]
pub extern "C" fn symcache_read_string(bytes: &[u8], offset: u32, part: &mut [u64]) -> u32
    ensures { filled result part.new ≡ string_call bytes.now offset part.old }
{
    c_texts::read_string(bytes, offset, part)
}

// The name of a function: 1 to 11, or 0 and where it lies. Absent means the stand-in.
#[unsafe(no_mangle)]
pub extern "C" fn symcache_function_name(bytes: &[u8], function_idx: u32, part: &mut [u64]) -> u32
    ensures { filled result part.new ≡ name_call bytes.now function_idx part.old }
{
    c_texts::function_name(bytes, function_idx, part)
}

#[unsafe(no_mangle)]
pub extern "C" fn symcache_get_function(bytes: &[u8], function_idx: u32, row: &mut [u32]) -> u32
    ensures { filled result row.new ≡ function_call bytes.now function_idx row.old }
{
    c_rows::get_function(bytes, function_idx, row)
}

#[unsafe(no_mangle)]
pub extern "C" fn symcache_get_file(bytes: &[u8], file_idx: u32, row: &mut [u32]) -> u32
    ensures { filled result row.new ≡ file_call bytes.now file_idx row.old }
{
    c_rows::get_file(bytes, file_idx, row)
}

// The next function that has an entry, from the cursor on.
#[unsafe(no_mangle)]
pub extern "C" fn symcache_functions_next(bytes: &[u8], cursor: &mut [u32], row: &mut [u32]) -> u32
    ensures { moved result cursor.new row.new ≡ functions_call bytes.now cursor.old row.old }
{
    c_rows::functions_next(bytes, cursor, row)
}

// The next file, from the cursor on.
#[unsafe(no_mangle)]
pub extern "C" fn symcache_files_next(bytes: &[u8], cursor: &mut [u32], row: &mut [u32]) -> u32
    ensures { moved result cursor.new row.new ≡ files_call bytes.now cursor.old row.old }
{
    c_rows::files_next(bytes, cursor, row)
}
