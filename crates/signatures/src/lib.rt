//! This crate interns lists of pairs. Each list is in strictly ascending order, is stored only once, and has an ID. So
//! two lists are equal if and only if their IDs are equal. Other crates use these lists as the signatures of states.
//!
//! A list is stored in two parts: its base, which is a list of pairs that many lists can share, and a few extra pairs,
//! which are all other pairs of the list. The bases are interned in a lower layer of this crate, which is called the
//! trie, and have IDs there. The trie stores a short list as a range of pairs. It stores a long list as the IDs of its
//! two halves, which are themselves lists of the trie. Each of the following modules uses only modules that come after
//! it in this list, and uses them only through their contracts.
//!
//! * `interner` defines the public type `Interner`.
//! * `list_union` computes the union of several lists.
//! * `table` interns lists, so that equal lists get the same ID.
//! * `extensions` stores each list in two parts: its base, which is a list of pairs that several lists can share, and
//!   its extra pairs, which are all other pairs of the list.
//! * `unions` makes new bases, which are lists that other lists can share. It makes a base from pairs, from a list and
//!   pairs, or from two lists.
//! * `trie` interns the bases, which are lists that other lists can share, so that equal bases get the same ID.
//! * `trie_lookup` finds a list of the trie by its tag, which is a hash of the list.
//! * `union_cache` defines the union cache, which is a hash table of unions of bases that were computed before.
//! * `nodes` stores each list of the trie, either as a range of pairs or as the IDs of its two halves.
//! * `cut` computes the number at which a list is divided into two halves, and `hashes` computes hashes of lists.
//! * `sort_by_marks` sorts pairs by marks (bits) if there are many pairs. `sorted_lists` sorts pairs by comparisons,
//!   and searches and merges sorted lists.
//!
//! A long list is divided into two halves at a number, which is called the split point of the list. To compare a pair
//! (x, y) with the split point, the pair is represented by the number x * 2^32 + y. Among all numbers that are greater
//! than the first pair and at most the last pair, the split point is the number that is divisible by the highest power
//! of two. So the two halves depend only on the pairs of the list. A half that is still long is divided into halves in
//! the same way. If two lists differ in only a few pairs, they have most of their halves in common.
//!
//! A call that returns a `Result` fails only if an allocation fails, or if all IDs are in use (`MOST_LISTS`). The error
//! is then `Memory`.
#![tactic(auto)]

mod cut;
mod extensions;
mod hashes;
mod interner;
mod list_union;
mod nodes;
mod sort_by_marks;
mod sorted_lists;
mod table;
mod trie;
mod trie_lookup;
mod union_cache;
mod unions;

pub use buckets::EMPTY;
pub use interner::Interner;
pub use nodes::MOST_LISTS;
pub use sorted_lists::order;
