// Words of eight bytes, the lowest byte first, read and written. Each compiles to one load and one store.
#![tactic(auto)]

ghost use Rattle.std.specs.Prelude.{◌≡◌, ◌*◌, length};
ghost use Rattle.words.specs.Words.{words_of, all_bytes};

// All words that the bytes write.
pub fn read_words(words: &mut [u64], bytes: &[u8])
    requires { length bytes.now ≡ length words.old * 8 }
    ensures { words.new ≡ words_of 8 (length words.old) bytes.now }
{
    let (parts, _) = bytes.as_chunks::<8>();
    for (i, word) in words.iter_mut().enumerate() {
        *word = u64::from_le_bytes(parts[i]);
    }
}

// All bytes of the words.
pub fn write_words(bytes: &mut [u8], words: &[u64])
    requires { length bytes.old ≡ length words.now * 8 }
    ensures { bytes.new ≡ all_bytes 8 words.now }
{
    for (i, word) in words.iter().enumerate() {
        bytes[i * 8..(i + 1) * 8].copy_from_slice(&word.to_le_bytes());
    }
}
