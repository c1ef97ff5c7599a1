// The last receipt of each tracker.
ghost use Rattle.std.specs.Prelude.{◌≡◌, ◌⊎◌, ◌↔◌, ℕ, ◌+◌, ◌<◌, ◌≤◌, List, length, true, Some, None, IsTrue, IfOk, IfSome, IsNone};
ghost use Rattle.std.specs.FinMap as map;
ghost use Rattle.std.specs.FinMap.{contains_key, entries, get, insert, len};
ghost use Rattle.std.specs.List.Sorted.{IsBinarySearchResult, IsSearchInRange};
ghost use Rattle.plan_basics.specs.Keys.{Name, name_cmp};
ghost use Rattle.plan_basics.specs.declared.limits.TheConstants.{MOST_TRACKERS};
ghost use Rattle.plan_laws.specs.plan_records.specs.Answer.{Answer};
ghost use Rattle.plan_laws.specs.plan_records.specs.Receipts.{AreReceipts, IsReceipt};
ghost use Rattle.plan_laws.specs.plan_records.specs.Step.{AnswersAgain, HasReceiptRoom, last_number};
ghost use Rattle.plan_laws.specs.plan_records.specs.declared.Request.{Request};
ghost use Rattle.tracker_receipts.specs.Judging.{IsAnsweredBy, IsJudged, IsNew, numbered_by};

use super::judging::Judged;
use plan_basics::limits::{GREATEST_REQUEST_NUMBER, LONGEST_REQUEST_TEXT, MOST_TRACKERS};
use plan_basics::{OpKey, Refusal, TrackerName};
use std::alloc::{AllocError, Global};
use std::marker::Model;

/// A tracker's last accepted request: its number, its text, and the keys that its reply named.
#[derive(Drop)]
pub struct Receipt {
    number: u64,
    text: Vec<u8>,
    named: Vec<OpKey>,
}

impl Model for Receipt {
    ghost use Rattle.plan_laws.specs.plan_records.specs.Step.{Receipt as LastAccepted};
    ghost use Rattle.tracker_receipts.specs.Codes.{receipt_code};

    ghost Value = { LastAccepted };

    ghost coded = { receipt_code };

    ghost view = { λ r. record { number = r.number; text = r.text.items; named = r.named.items } };
}

impl Receipt {
    /// The receipt of this number, text and keys.
    pub fn new(number: u64, text: Vec<u8>, named: Vec<OpKey>) -> Receipt
        ensures { result ≡ record { number = number; text = text.items; named = named.items } }
    {
        Receipt {
            number,
            text,
            named,
        }
    }

    /// The request's number.
    pub fn number(&self) -> u64
        ensures { result ≡ self.now.number }
    {
        self.number
    }

    /// The request's text.
    pub fn text(&self) -> &[u8]
        ensures { result.now ≡ self.now.text }
    {
        &self.text
    }

    /// The keys that its reply named, in their order.
    pub fn named(&self) -> &[OpKey]
        ensures { result.now ≡ self.now.named }
    {
        &self.named
    }

    // What a request of this number and text is told, after this one.
    fn judge(&self, number: u64, text: &[u8]) -> Judged<'_>
        ensures { (tracker : Name) → (q : Request) → IsJudged (Some self.now) (numbered_by tracker number text.now q) result }
    {
        if number == 0 || number < self.number {
            Judged::Refused(Refusal::Old)
        } else if number - self.number > 1 {
            Judged::Refused(Refusal::Gap)
        } else if number > self.number {
            Judged::New
        } else if self.text.as_slice() == text {
            Judged::Again(&self.named)
        } else {
            Judged::Refused(Refusal::Reused)
        }
    }
}

/// The last receipt of each tracker that has one. Contracts see it as the map from trackers to receipts, which is well
/// formed. Room for the receipts of all trackers is taken when it is made, so that keeping one takes no memory.
// (A receipt is kept once its request is committed, where nothing may fail any more.)
#[derive(Drop)]
pub struct Receipts {
    // In order of the trackers.
    rows: Vec<(TrackerName, Receipt)>,
}

impl Model for Receipts {
    ghost use Rattle.std.specs.FinMap.{from_entries};
    ghost use Rattle.plan_laws.specs.plan_records.specs.Step.{Receipts as LastReceipts};
    ghost use Rattle.tracker_receipts.specs.Codes.{receipts_code};

    ghost Value = { LastReceipts };

    ghost coded = { receipts_code };

    ghost view = { λ r. from_entries r.rows.items };

    ghost use Rattle.tracker_receipts.specs.Kept.{AreKept};

    ghost invariant = { AreKept };
}

impl Receipts {
    /// Those of no tracker.
    pub fn new(alloc: Global) -> Result<Receipts, AllocError>
        ensures { IfOk result (λ receipts. receipts ≡ map.empty) }
    {
        Ok(Receipts {
            rows: Vec::with_capacity(alloc, MOST_TRACKERS)?,
        })
    }

    /// A tracker's last receipt, if it has one.
    pub fn last(&self, tracker: &TrackerName) -> Option<&Receipt>
        ensures found { IfSome result (λ receipt. get self.now tracker.now ≡ Some receipt.now) }
        ensures absent { IsNone result → get self.now tracker.now ≡ None }
        ensures legal { AreReceipts true self.now }
    {
        match place_of(&self.rows, tracker) {
            Ok(place) => Some(&self.rows[place].1),
            Err(_) => None,
        }
    }

    /// The last receipt of each tracker that has one, by tracker.
    pub fn rows(&self) -> &[(TrackerName, Receipt)]
        ensures { result.now ≡ entries self.now }
    {
        &self.rows
    }

    // Whether as many trackers have one as may.
    fn is_full(&self) -> bool
        ensures { IsTrue result ↔ (MOST_TRACKERS ≤ len self.now) }
    {
        self.rows.len() >= MOST_TRACKERS
    }

    // Whether a tracker has none yet and may have one.
    pub(crate) fn is_open_to(&self, tracker: &TrackerName) -> bool
        ensures { IsTrue result ↔ ((get self.now tracker.now ≡ None) × (len self.now < MOST_TRACKERS)) }
    {
        match self.last(tracker) {
            Some(_) => false,
            None => !self.is_full(),
        }
    }

    /// What a tracker's request is told by its number and its text. No memory is taken.
    pub fn judge(&self, tracker: &TrackerName, number: u64, text: &[u8]) -> Judged<'_>
        ensures new { IsNew result ↔ (number ≡ last_number (get self.now tracker.now) + 1) }
        ensures again { (q : Request) → (reply : Answer) → AnswersAgain (get self.now tracker.now) (numbered_by tracker.now number text.now q) reply ↔ IsAnsweredBy result reply }
    {
        match self.last(tracker) {
            Some(receipt) => receipt.judge(number, text),
            None => first_judged(number),
        }
    }

    /// Whether there is room for the receipt of a request: its tracker has one already or may have one, its text isn't too
    /// long, and its number not too great.
    pub fn has_room(&self, tracker: &TrackerName, number: u64, text: &[u8]) -> bool
        ensures { (q : Request) → IsTrue result ↔ HasReceiptRoom self.now (numbered_by tracker.now number text.now q) }
    {
        (!self.is_full() || self.last(tracker).is_some())
            && text.len() <= LONGEST_REQUEST_TEXT
            && number <= GREATEST_REQUEST_NUMBER as u64
    }

    /// A tracker's last receipt is this one from now on. It takes no memory.
    pub fn put(&mut self, tracker: &TrackerName, receipt: Receipt)
        requires room { (contains_key self.old tracker.now ≡ true) ⊎ (len self.old < MOST_TRACKERS) }
        requires legal { IsReceipt tracker.now receipt }
        ensures { self.new ≡ insert self.old tracker.now receipt }
    {
        let row = (*tracker, receipt);
        match place_of(&self.rows, tracker) {
            Ok(place) => self.rows[place] = row,
            Err(place) => self.rows.insert(place, row).unwrap(),
        }
    }
}

// Where a tracker's row is among rows in order, or else where it belongs.
fn place_of(rows: &[(TrackerName, Receipt)], tracker: &TrackerName) -> Result<usize, usize>
    ensures bound { IsSearchInRange result (length rows.now) }
    ensures position { IsBinarySearchResult (λ row. name_cmp row.0 tracker.now) rows.now result }
{
    rows.binary_search_by_key(tracker, |row| row.0)
}

// What a request of this number is told, where its tracker has no receipt.
fn first_judged<'a>(number: u64) -> Judged<'a>
    ensures { (tracker : Name) → (text : List ℕ) → (q : Request) → IsJudged None (numbered_by tracker number text q) result }
{
    match number {
        0 => Judged::Refused(Refusal::Old),
        1 => Judged::New,
        _ => Judged::Refused(Refusal::Gap),
    }
}
