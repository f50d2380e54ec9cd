//! That the types of a group may go to other threads. It has no code: its lemmas say it of structures whose generated proofs don't,
//! as those with chains of records, and of the group as a whole, where its disk, its cache and its policies may.
#![tactic(auto)]
