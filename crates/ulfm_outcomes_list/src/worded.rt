//! An answer with its words.
ghost use Rattle.std.specs.Prelude.{◌≡◌, Some, IfOk, bytes_eq, refl};
ghost use Rattle.std.specs.Cmp.{on_equiv, on_per, on_po, on_total, partial_equiv_from_equiv};
ghost use Rattle.std.specs.Cmp.Lexicographic.{nat_list_cmp_total, nat_list_eq_equiv, texts_po, texts_ties};
ghost use Rattle.ulfm_answer.specs.Trace.{told_text};
ghost use Rattle.ulfm_outcomes_list.specs.Text.{by_text};

use std::alloc::{AllocError, Global};
use std::cmp::Ordering;
use std::marker::Model;
use ulfm_answer::{ToldAnswer, push_told};

/// What is told of an answer, with its words, by whose bytes it is ordered. Contracts see what is told.
#[derive(Drop)]
pub struct Worded<'a> {
    words: String,
    told: ToldAnswer<'a>,
}

impl<'a> Model for Worded<'a> {
    ghost use Rattle.std.specs.Prelude.{◌≡◌, string_bytes};
    ghost use Rattle.ulfm_answer.specs.Trace.{told_text};
    ghost use Rattle.ulfm_answer.specs.declared.told_answer.ToldAnswer.{ToldAnswer as Told};

    ghost Value = { Told };

    ghost view = { λ w. w.told };

    ghost invariant = { λ w. string_bytes w.words ≡ told_text w.told };
}

impl<'a> Worded<'a> {
    /// An answer with its words.
    ///
    /// # Errors
    ///
    /// A growth was refused.
    pub fn new(alloc: Global, told: ToldAnswer<'a>) -> Result<Worded<'a>, AllocError>
        ensures { IfOk result (λ worded. worded ≡ told.entry) }
    {
        let mut words = String::new(alloc);
        push_told(&mut words, &told)?;
        Ok(Worded { words, told })
    }

    /// Its words.
    pub fn words(&self) -> &str
        ensures { result.now ≡ told_text self.now }
    {
        self.words.as_str()
    }

    /// What is told.
    pub fn told(&self) -> &ToldAnswer<'a>
        ensures { result.now ≡ self.now }
    {
        &self.told
    }
}

impl<'a> PartialEq for Worded<'a> {
    ghost eq = { λ a b. bytes_eq (told_text a) (told_text b) };

    ghost laws = { on_per told_text (partial_equiv_from_equiv nat_list_eq_equiv) };

    fn eq(&self, other: &Worded<'a>) -> bool {
        self.words() == other.words()
    }
}

impl<'a> Eq for Worded<'a> {
    ghost laws = { on_equiv told_text nat_list_eq_equiv };
}

impl<'a> PartialOrd for Worded<'a> {
    ghost partial_cmp = { λ a b. Some (by_text a b) };

    ghost laws = { on_po told_text texts_po };

    fn partial_cmp(&self, other: &Worded<'a>) -> Option<Ordering> {
        Some(self.cmp(other))
    }
}

impl<'a> Ord for Worded<'a> {
    ghost cmp = { by_text };

    ghost total = { on_total told_text nat_list_cmp_total };

    ghost matches_partial_cmp = { λ a b. refl };

    ghost matches_eq = { λ a b. texts_ties (told_text a) (told_text b) };

    fn cmp(&self, other: &Worded<'a>) -> Ordering {
        self.words().cmp(other.words())
    }
}
