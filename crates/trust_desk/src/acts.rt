//! Who did what in a matter, told to all who may read it.

ghost use Rattle.std.specs.Prelude.{◌≡◌, ◌++◌, ◌∷◌, [], IfOk, None};
ghost use Rattle.firm_rows.specs.Firm.{acts_of, of};
ghost use Rattle.trust_store.specs.Calls.{IsRead};
ghost use Rattle.trust_store.specs.Named.{IsPartFor};
ghost use Rattle.trust_desk.specs.Answered.{IsAnswered};
ghost use Rattle.trust_desk.specs.Heard.{Heard, OfActs, kind_of};

use crate::requests::{Body, Reply};
use firm_rows::{MatterAct, RowSink};
use json_bodies::acts_body;
use std::alloc::{AllocError, Global};
use std::marker::Model;
use trust_base::{Day, MatterNo, OwnedBytes, Refusal, StoreFault};
use trust_matter::{Act, Ask, Caller, Matter, decide};
use trust_store::Book;

// Keeps the acts that it receives.
//
// Contracts see it as the acts so far.
#[derive(Drop)]
struct ActsOfMatter {
    acts: Vec<Act>,
}

impl Model for ActsOfMatter {
    ghost use Rattle.std.specs.Prelude.{List};
    ghost use Rattle.matter_rows.specs.declared.act.Act.{Act};

    ghost Value = { List Act };

    ghost view = { λ s. s.acts.items };
}

impl ActsOfMatter {
    // None so far.
    fn new(alloc: Global) -> ActsOfMatter
        ensures { result ≡ [] }
    {
        ActsOfMatter {
            acts: Vec::new(alloc),
        }
    }

    // The acts, in the order of acceptance.
    fn finish(self) -> Vec<Act>
        ensures { result.items ≡ self }
    {
        self.acts
    }
}

impl RowSink<MatterAct> for ActsOfMatter {
    ghost taken = { λ acts act. acts ++ act.act ∷ [] };

    fn take(&mut self, act: &MatterAct) -> Result<(), AllocError> {
        let act = act.act.copied()?;
        self.acts.push(act)?;
        Ok(())
    }
}

// A matter without its entries, and its acts.
#[derive(Drop)]
struct Dossier {
    matter: Matter,
    acts: Vec<Act>,
}

// Returns the dossier of a matter.
//
// Returns `Store` if the book's store failed, and `Memory` if memory ran out.
fn find_dossier<B: Book>(alloc: Global, book: &mut B, no: MatterNo) -> Result<Dossier, StoreFault>
    ensures part { (B.seen book.new).clean → (B.seen book.old).stands
        → IfOk result (λ found. IsPartFor (of no (B.seen book.old).firm) None None found.matter) }
    ensures acts { (B.seen book.new).clean → (B.seen book.old).stands
        → IfOk result (λ found. found.acts.items ≡ acts_of no (B.seen book.old).firm) }
    ensures read { IsRead result (B.seen book.old) (B.seen book.new) }
{
    let matter = book.matter_for(alloc, no, None, None)?;
    let mut kept = ActsOfMatter::new(alloc);
    book.each_act_of(no, &mut kept)?;
    Ok(Dossier {
        matter,
        acts: kept.finish(),
    })
}

/// Answers a caller with the acts of a matter, or says why that is refused, which is as for reading the matter. Nothing
/// changes.
pub(crate) fn answer_acts<B: Book>(
    alloc: Global,
    book: &mut B,
    no: MatterNo,
    caller: &Caller,
    day: Day,
) -> Result<Reply, Refusal>
    ensures { (h : Heard) → kind_of h ≡ OfActs no caller.now
        → IsAnswered day h result (B.seen book.old) (B.seen book.new) }
{
    let found = find_dossier(alloc, book, no)?;
    // Who may read the matter may read its acts.
    decide(&found.matter, caller, &Ask::Show, day)?;
    let text = acts_body(alloc, &found.acts)?;
    Ok(Reply {
        status: 200,
        body: Body::Json(OwnedBytes::new(text)),
    })
}
