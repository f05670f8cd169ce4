//! Laws of the answers. Each is the contract of a function that does nothing.

ghost use Rattle.portal_http.specs.Answers.{PhrasesAreCanonical};
ghost use Rattle.portal_http.specs.TwoStreams.{SameBytesByRowsAlone, SameBytesForTheMatter};

/// The phrase of each status that replies use is that of the crate `http`.
pub fn canonical_phrases()
    ensures { PhrasesAreCanonical }
{}

/// A matter is answered alike in two sound firms that hold the same rows and acts of it, whatever else their streams
/// carry. If the requests and statement lines that name the matter are the same, each such request gets an answer with
/// the same bytes, those of the matter's own machine, and the matter has the same rows and acts at the end. Where
/// nobody asks for the acts, the same rows suffice. No ledger ever falls below zero. Nothing is promised of streams in
/// which the store or lack of memory stopped a message that concerns the matter.
pub fn two_streams()
    ensures whole { SameBytesForTheMatter }
    ensures rows { SameBytesByRowsAlone }
{}
