//! What a look is answered where a viewer is let in.
ghost use Rattle.std.specs.Prelude.{◌≡◌, IfErr, IfNone, IfOk, IfSome};
ghost use Rattle.desk_answers.specs.Looks.{IsLooked, IsSeen};
ghost use Rattle.seat_rules.specs.Journal.{replay};
ghost use Rattle.seat_rules.specs.Prefixes.{Begins};
ghost use Rattle.desk_looks.specs.Asking.{IsUnseen};
ghost use Rattle.desk_looks.specs.Windows.{refused_once, Flown, IsSameTable};
ghost use Rattle.airimp_lines.specs.declared.look.Look.{Look as Looked};

use crate::glance::Glance;
use crate::season::Season;
use crate::window::Window;
use airimp_lines::Look;
use airline_base::Memory;
use desk_answers::seen;
use seat_display::Sight;
use ssim_flights::Served;
use std::alloc::Global;
use std::marker::Model;

/// Why a look is not answered.
#[derive(Clone, Copy)]
pub enum Unseen {
    /// Nothing was seen: no reader was let in, or memory was wanting.
    Refused,
    /// Lines came in between, each time.
    Late,
}

/// A look, and the flights that it is over, in an index.
#[derive(Drop)]
pub struct Question<'a> {
    alloc: Global,
    season: &'a Season,
    served: &'a Served<'a>,
    look: &'a Look,
}

impl<'a> Model for Question<'a> {
    ghost use Rattle.std.specs.Prelude.{◌≡◌};
    ghost use Rattle.desk_looks.specs.Asking.{Asked};

    ghost Value = { Asked };

    ghost view = { λ s. record { flown = s.season.now; look = s.look.now } };

    ghost invariant = { λ s. s.served.now ≡ s.season.now.flights };
}

impl<'a> Question<'a> {
    pub fn new(
        alloc: Global,
        season: &'a Season,
        served: &'a Served<'a>,
        look: &'a Look,
    ) -> Question<'a>
        requires served { served.now ≡ season.now.flights }
        ensures { (result.flown ≡ season.now) × (result.look ≡ look.now) }
    {
        Question {
            alloc,
            season,
            served,
            look,
        }
    }
}

/// Whatever is answered by what is seen.
trait Asking {
    /// The flights that are looked at.
    ghost flown: { Self → Flown };

    /// What is looked at.
    ghost look: { Self → Looked };

    /// Its answer by what is seen, where that many lines are said to be seen.
    fn answer(&self, sight: &Sight, lines: u32) -> Result<Vec<u8>, Memory>
        ensures { IfOk result (λ text. IsSeen (flown self.now).flights (flown self.now).grid
            (replay sight.now.grid sight.now.front) lines (look self.now).flight (look self.now) text.items) };
}

impl<'a> Asking for Question<'a> {
    ghost flown = { λ q. q.flown };

    ghost look = { λ q. q.look };

    fn answer(&self, sight: &Sight, lines: u32) -> Result<Vec<u8>, Memory> {
        let grid = self.season.grid();
        let glance = Glance { sight, grid, lines };
        seen(
            self.alloc,
            self.season.flights(),
            self.served,
            self.season.days(),
            &glance,
            self.look,
        )
    }
}

/// What a look is answered: the seats that are left after all that is then seen. Where lines come in between it is looked once more, three
/// times at most.
#[tactic(auto, using(crate::proofs::Tries::unseen_later, crate::proofs::Tries::same_later, crate::proofs::Tries::begins_later))]
pub fn look_told(window: &mut Window, question: &Question<'_>) -> Result<Vec<u8>, Unseen>
    requires grid { window.old.grid ≡ question.now.flown.grid }
    ensures told { IfOk result (λ text. IsLooked question.now.flown.flights question.now.flown.grid window.new.front
        question.now.look text.items) }
    ensures unseen { IfErr result (IsUnseen window.old window.new) }
    ensures front { Begins window.old.front window.new.front }
    ensures same { IsSameTable window.old window.new }
{
    match look_twice(window, question) {
        Ok(text) => Ok(text),
        Err(Unseen::Refused) => Err(Unseen::Refused),
        Err(Unseen::Late) => look_once(window, question),
    }
}

#[tactic(auto, using(crate::proofs::Tries::unseen_later, crate::proofs::Tries::same_later, crate::proofs::Tries::begins_later))]
fn look_twice(window: &mut Window, question: &Question<'_>) -> Result<Vec<u8>, Unseen>
    requires grid { window.old.grid ≡ question.now.flown.grid }
    ensures told { IfOk result (λ text. IsLooked question.now.flown.flights question.now.flown.grid window.new.front
        question.now.look text.items) }
    ensures unseen { IfErr result (IsUnseen window.old window.new) }
    ensures front { Begins window.old.front window.new.front }
    ensures same { IsSameTable window.old window.new }
{
    match look_once(window, question) {
        Ok(text) => Ok(text),
        Err(Unseen::Refused) => Err(Unseen::Refused),
        Err(Unseen::Late) => look_once(window, question),
    }
}

// The count of lines is taken by a look of its own just before, so the text is right where no line came in between.
#[tactic(auto, using(crate::proofs::Tries::unseen_behind, crate::proofs::Tries::same_later, crate::proofs::Tries::begins_later))]
fn look_once(window: &mut Window, question: &Question<'_>) -> Result<Vec<u8>, Unseen>
    requires grid { window.old.grid ≡ question.now.flown.grid }
    ensures told { IfOk result (λ text. IsLooked question.now.flown.flights question.now.flown.grid window.new.front
        question.now.look text.items) }
    ensures unseen { IfErr result (IsUnseen window.old window.new) }
    ensures front { Begins window.old.front window.new.front }
    ensures same { IsSameTable window.old window.new }
{
    match window.look(|_sight| ()) {
        Some(()) => look_now(window, question),
        None => Err(Unseen::Refused),
    }
}

#[tactic(auto, using(crate::proofs::Tries::seen_now, crate::proofs::Tries::late_now))]
fn look_now(window: &mut Window, question: &Question<'_>) -> Result<Vec<u8>, Unseen>
    requires grid { window.old.grid ≡ question.now.flown.grid }
    ensures told { IfOk result (λ text. IsLooked question.now.flown.flights question.now.flown.grid window.new.front
        question.now.look text.items) }
    ensures unseen { IfErr result (IsUnseen window.old window.new) }
    ensures front { Begins window.old.front window.new.front }
    ensures same { IsSameTable window.old window.new }
{
    let lines = window.seen();
    let Some(seen) = glimpse(window, question, lines) else {
        return Err(Unseen::Refused);
    };
    let Ok(text) = seen else {
        window.refuse();
        return Err(Unseen::Refused);
    };
    if window.seen() != lines {
        return Err(Unseen::Late);
    }
    Ok(text)
}

// The answer by what is then seen, where that many lines are said to be seen.
fn glimpse<Q: Asking>(
    window: &mut Window,
    question: &Q,
    lines: u32,
) -> Option<Result<Vec<u8>, Memory>>
    ensures seen { IfSome result (λ r. IfOk r (λ text. IsSeen (Q.flown question.now).flights (Q.flown question.now).grid
        (replay window.new.grid window.new.front) lines (Q.look question.now).flight (Q.look question.now) text.items)) }
    ensures front { Begins window.old.front window.new.front }
    ensures none { IfNone result (window.new ≡ refused_once window.old) }
    ensures some { IfSome result (λ _. window.new.refused ≡ window.old.refused) }
    ensures same { IsSameTable window.old window.new }
{
    window.look(|sight| question.answer(sight, lines))
}
