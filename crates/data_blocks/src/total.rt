// Whether fragments lie in the image, and how many bytes they have together.
ghost use Rattle.data_blocks.specs.Filled.{TotalOf};

// Of the fragments whose words are given, three each; none where they don't, or where the bytes are too many for a number.
pub fn total_of(image: &[u8], fragments: &[u64]) -> Option<u64>
    ensures { TotalOf image.now fragments.now result }
{
    let n = fragments.len();
    let size = image.len() as u64;
    let mut i = 0;
    let mut bytes: u64 = 0;
    while 3 <= n - i {
        let offset = fragments[i];
        let more = fragments[i + 1];
        if size < offset || size - offset < more {
            return None;
        }
        bytes = bytes.checked_add(more)?;
        i += 3;
    }
    Some(bytes)
}
