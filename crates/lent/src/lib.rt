// Words lent in one of two ways: as numbers, or as little-endian bytes, eight to a word, as the calls for C get them: what they are, and how one is read
// and stored.
//
// Every engine is written once over the elements that words are stored in, `E: Stored`: the walks of a funnel table, the check, images, elastic tables. Their
// public calls lend numbers, the calls for C bytes. A contract speaks of the words that are lent, `E.words`, so the definitions are the base's own.
//
//     store.rt   the elements that words are stored in: how many words a slice of them is, and the word of a slot
//     word.rt    the word of a slot in bytes, and how many words some bytes are
//
// specs/Lent.antt says what words lent as bytes are.

#![tactic(auto)]

pub mod store;
pub mod word;
