// Image carving, paths and the decoding of names as C functions, for Rust or C to link: a slice is a pointer and a length, and an
// answer goes out as a number, 0 or a refusal's, with its words in a lent list.
//
//     mft_carve_entries    the MFT entries in an image
//     utf16_decode         the text of a name
//     path_resolve, path_chain
//                          the path of a key, with its text and without it
//     path_decode          the text of a stored name
//
// Every function here is proved, and none has a `requires`. A refused call writes nothing. One that answers writes of its list the words
// of its answer alone: those past them stay as they were. Too few words for the answer are refused with 5 directly behind 1, before
// everything else.
#![tactic(auto)]

ghost use Rattle.path_text.specs.Decoding.{place};
ghost use Rattle.volume_answers.specs.Key.{key_of};
ghost use Rattle.volume_ffi.specs.Promise.{CarveCallPromise, DecodeCallPromise, PlaceCallPromise, ChainCallPromise, ResolvePromise};

use base::DOMAIN;
use base::words::{put_answer, short};
use chain::words::CHAIN_WORDS;
use entry_slots::EntryKey;
use mft_carver::rows::STATS_WORDS;
use path::words::PATH_WORDS;
use volume_answers::domain::short_over;

// The words of what decoding answers.
const TEXT_WORDS: usize = 1;

// The MFT entries in an image: for each nine words of list, namely its offset, number and sequence, its name's offset and length
// in bytes, its parent's entry and sequence, and 1 or 0 for a directory and for in use. And 4 words of out: the bytes scanned, the
// candidates examined, the entries carved and the candidates rejected.
// Answers 0, or refuses: 1 the image is above the domain, 5 out has fewer than 4 words, or list fewer than nine for each entry.
#[unsafe(no_mangle)]
pub extern "C" fn mft_carve_entries(image: &[u8], list: &mut [u64], out: &mut [u64]) -> u32
    ensures { CarveCallPromise image list out result }
{
    if out.len() < STATS_WORDS {
        return short(DOMAIN < image.len());
    }
    put_answer(mft_carver::carve_mft_entries(image, list), out)
}

// The UTF-16 units of a name's bytes as UTF-8, in front of text, and how many bytes that takes, a word of out.
// Answers 0, or refuses: 1 the bytes are above the domain, 5 out has no word, 8 the text is too small.
#[unsafe(no_mangle)]
pub extern "C" fn utf16_decode(bytes: &[u8], text: &mut [u8], out: &mut [u64]) -> u32
    ensures { DecodeCallPromise bytes text out result }
{
    if out.len() < TEXT_WORDS {
        return short(DOMAIN < bytes.len());
    }
    put_answer(utf16::decode_utf16(bytes, text), out)
}

// The path of a key, with its text in front of text. The places of its names go to the front of chain, the top one first, three
// words each: source, offset, length; chain is left alone where it has no room for all of them. 5 words of out: the names, what
// they hang under (0 the root, 1 an unknown key, 2 an unresolved one), that key's entry and sequence (0, 0 for the root), and the
// bytes of the text.
// Answers 0, or refuses: 1 journal or image is above the domain, 5 out has fewer than 5 words, 9 used is above the slots, 7 the
// name's place of a used slot is outside its slice, 8 the text is too small.
#[unsafe(no_mangle)]
pub extern "C" fn path_resolve(
    journal: &[u8],
    image: &[u8],
    slots: &[u64],
    used: usize,
    entry: u64,
    sequence: u64,
    chain: &mut [u64],
    text: &mut [u8],
    out: &mut [u64],
) -> u32
    ensures { ResolvePromise journal image slots used (key_of entry sequence) chain text out result }
{
    if out.len() < PATH_WORDS {
        return short_over(journal, image);
    }
    put_answer(
        path::path(
            journal,
            image,
            slots,
            used,
            EntryKey { entry, sequence },
            chain,
            text,
        ),
        out,
    )
}

// The path of a key without its text: 4 words of out, as above but for the text's bytes.
// Answers 0, or refuses: 1 as above, 5 out has fewer than 4 words, 9 and 7 as above.
#[unsafe(no_mangle)]
pub extern "C" fn path_chain(
    journal: &[u8],
    image: &[u8],
    slots: &[u64],
    used: usize,
    entry: u64,
    sequence: u64,
    chain: &mut [u64],
    out: &mut [u64],
) -> u32
    ensures { ChainCallPromise journal image slots used (key_of entry sequence) chain out result }
{
    if out.len() < CHAIN_WORDS {
        return short_over(journal, image);
    }
    put_answer(
        chain::path_chain(
            journal,
            image,
            slots,
            used,
            EntryKey { entry, sequence },
            chain,
        ),
        out,
    )
}

// The name at a place of the journal (source 0) or of the image (any other), as UTF-8 in front of text, and how many bytes that
// takes, a word of out.
// Answers 0, or refuses: 1 journal or image is above the domain, 5 out has no word, 7 the place is outside its slice, 8 the text
// is too small.
#[unsafe(no_mangle)]
pub extern "C" fn path_decode(
    journal: &[u8],
    image: &[u8],
    source: u64,
    offset: u64,
    length: u64,
    text: &mut [u8],
    out: &mut [u64],
) -> u32
    ensures { PlaceCallPromise journal image (place source offset length) text out result }
{
    if out.len() < TEXT_WORDS {
        return short_over(journal, image);
    }
    put_answer(
        path_text::decode(journal, image, source, offset, length, text),
        out,
    )
}
