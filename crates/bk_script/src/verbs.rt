//! The words that say what a line does.
ghost use Rattle.std.specs.Prelude.{◌≡◌, Some, IfSome};
ghost use Rattle.bk_script.specs.declared.verbs.Head.{Head};
ghost use Rattle.bk_script.specs.declared.verbs.Verb.{Verb};
ghost use Rattle.bk_script.specs.Words.{FitsHead, head_word, verb_word};

use crate::actors::Actor;

/// What the first word of a line says.
#[derive(Clone, Copy, Debug, PartialEq, Eq)]
pub(crate) enum Head {
    Max,
    Ttl,
    At,
    Fail,
    Fuse,
    By(Actor),
    Stop,
}

/// What an actor does, without what it does it with.
#[derive(Clone, Copy, Debug, PartialEq, Eq)]
pub(crate) enum Verb {
    Put,
    Big,
    Delete,
    Reap,
    Get,
    Read,
    Sync,
    Fold,
    Next,
    End,
}

impl Head {
    /// What this first word says.
    pub(crate) fn of(word: &[u8]) -> Option<Head>
        ensures found { IfSome result (λ head. FitsHead head × (head_word head ≡ word.now)) }
        ensures only { (head : Head) → FitsHead head → head_word head ≡ word.now → result ≡ Some head }
    {
        match word {
            b"max" => Some(Head::Max),
            b"ttl" => Some(Head::Ttl),
            b"at" => Some(Head::At),
            b"fail" => Some(Head::Fail),
            b"fuse" => Some(Head::Fuse),
            b"stop" => Some(Head::Stop),
            [letter @ b'a'..=b'z'] => Some(Head::By(Actor(letter - b'a' + 1))),
            _ => None,
        }
    }
}

impl Verb {
    /// What this word says.
    pub(crate) fn of(word: &[u8]) -> Option<Verb>
        ensures found { IfSome result (λ verb. verb_word verb ≡ word.now) }
        ensures only { (verb : Verb) → verb_word verb ≡ word.now → result ≡ Some verb }
    {
        match word {
            b"put" => Some(Verb::Put),
            b"big" => Some(Verb::Big),
            b"del" => Some(Verb::Delete),
            b"reap" => Some(Verb::Reap),
            b"get" => Some(Verb::Get),
            b"read" => Some(Verb::Read),
            b"sync" => Some(Verb::Sync),
            b"fold" => Some(Verb::Fold),
            b"next" => Some(Verb::Next),
            b"end" => Some(Verb::End),
            _ => None,
        }
    }
}
