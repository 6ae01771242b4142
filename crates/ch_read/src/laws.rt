//! Laws on lists of bytes, for every reader.
ghost use Rattle.std.specs.Prelude.{◌≡◌, ℕ, List};
ghost use Rattle.ch_read.specs.declared.form.Form.TheVariants as Form;
ghost use Rattle.ch_read.specs.declared.request.TheConstants.{MOST_LINE};
ghost use Rattle.ch_read.specs.Answers.{HasOneAnswer};
ghost use Rattle.ch_read.specs.RequestLaws.{AreGivenInTurn, AreGivenToTheEnd, AreGivenToTheFault, AreNotHeldBack, AreToldByParts};
ghost use Rattle.ch_read.specs.Names.{NamesGraph, NamesQueries, NamesNodes, NamesSaved};

/// Each list of bytes names one value or has one fault, and not both.
pub fn one_answer()
    ensures graph { (bytes : List ℕ) → HasOneAnswer (NamesGraph bytes) Form.Graph bytes }
    ensures queries { (bytes : List ℕ) (n : ℕ) → HasOneAnswer (NamesQueries bytes n) (Form.Queries n) bytes }
    ensures nodes { (bytes : List ℕ) (n : ℕ) → HasOneAnswer (NamesNodes bytes n) (Form.Nodes n) bytes }
    ensures saved { (bytes : List ℕ) (n : ℕ) → HasOneAnswer (NamesSaved bytes n) (Form.Saved n) bytes }
{}

/// A stream may be cut anywhere. Its requests and its fault are those of the lines that end in the first part,
/// and then those of the rest of the first part with the second part.
pub fn requests_by_parts()
    ensures { AreToldByParts }
{}

/// A reader that is fed and asked in turn gives the requests of all its bytes, in order and each once. It holds
/// no whole request back. At the end it has given all requests, and at a fault all requests before it.
pub fn requests_whole_in_turn()
    ensures first { AreGivenInTurn }
    ensures whole { AreNotHeldBack }
    ensures ended { AreGivenToTheEnd }
    ensures fault { AreGivenToTheFault }
{}

/// Proves the value of the constant that the definitions of requests take from the code.
pub fn constants()
    ensures { MOST_LINE ≡ 65536 }
{}
