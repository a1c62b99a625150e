//! Messages in pieces: the state of a message as plain numbers, the keys that are lent to each step of it, and what a caller holds
//! who seals or opens a message piece by piece under a cipher.

pub(crate) mod aes_pass;
pub(crate) mod key_and_nonce;
pub(crate) mod keys;
pub(crate) mod opener;
pub(crate) mod pass_state;
pub(crate) mod sealer;
pub(crate) mod siv;
pub(crate) mod text_parts;
pub(crate) mod two_pass_state;
