//! Laws of what is answered. The functions do nothing: their contracts are the laws.

ghost use Rattle.std.specs.Prelude.{◌≡◌, ◌≢◌, ◌<◌, ◌≤◌, ◌⊎◌, ◌↔◌, ℕ, List, Some, length};
ghost use Rattle.tool_files.specs.Told.{Look};
ghost use Rattle.source_files.specs.Held.{AreHeld, StopsAt, Stop, Missing, Failed};
ghost use Rattle.refactor_app.specs.Words.{ExtractRequest, Files, Request, inputs, Asks, AsksExtract, AsksSteps, Uses, AskOther};
ghost use Rattle.refactor_app.specs.Refusals.{most_files, most_steps, AsksFew};
ghost use Rattle.refactor_app.specs.Answers.{IsBound, IsDone, IsChangeDone, IsExtractDone, IsRefused, IsThrew, IsUsage, IsMissing, IsReadFault, IsWriteFault};
ghost use Rattle.refactor_app.specs.Outcomes.{Outcome, ComesTo, AreTreeless, IsOfTypes, Excludes};

/// Words are one request at most, on one list of files.
pub fn one_request()
    ensures change { (words : List (List ℕ)) (a b : Request) → Asks words a → Asks words b → a ≡ b }
    ensures extraction { (words : List (List ℕ)) (a b : ExtractRequest) → AsksExtract words a → AsksExtract words b → a ≡ b }
    ensures files { (words : List (List ℕ)) (a b : Files) → Uses words a → Uses words b → a ≡ b }
{}

/// Words, and any number of files whose contents are told, come to one outcome at most: the lowest rule on words, the first absent file, the line of
/// a refusal, a request with its change, its types or its extraction, or the report of a check or of a run. The place of G1 is free: then both lines
/// are G1's, of one file. And nothing is said here of two answers of a check, or of what comes behind it, whose files break no rule before those on types.
pub fn one_outcome()
    ensures { (words : List (List ℕ)) (look : Look) (a b : Outcome) → ComesTo words (Some look) a → ComesTo words (Some look) b
        → (a ≡ b) ⊎ AreTreeless words (Some look) a b ⊎ (IsOfTypes words (Some look) a × IsOfTypes words (Some look) b) }
{}

/// So the answers of the call exclude each other, but for a refusal and what comes behind a check, and for two of these. A write fault stands where the
/// change or the extraction would.
pub fn answers_exclude()
    ensures usage { Excludes IsUsage IsDone × Excludes IsUsage IsRefused × Excludes IsUsage IsMissing × Excludes IsUsage IsReadFault × Excludes IsUsage IsWriteFault }
    ensures missing { Excludes IsMissing IsDone × Excludes IsMissing IsRefused × Excludes IsMissing IsWriteFault }
    ensures threw { Excludes IsThrew IsUsage × Excludes IsThrew IsMissing × Excludes IsThrew IsChangeDone × Excludes IsThrew IsExtractDone
        × Excludes IsThrew IsWriteFault }
    ensures bound { Excludes IsBound IsUsage × Excludes IsBound IsMissing × Excludes IsBound IsChangeDone × Excludes IsBound IsExtractDone
        × Excludes IsBound IsWriteFault }
{}

/// A read fault hangs on the course of the call, too: any file that is there may fail to be read, where the files before it are read. So it excludes what the words
/// and the counts of files and steps bring, a stop at a file before it, and that it is absent itself, and nothing else.
pub fn read_faults()
    ensures words { (words : List (List ℕ)) (fs gs : Files) → AsksFew words fs
        → (AskOther words → ⊥) × (Uses words gs → length (inputs gs) ≤ most_files) × ((n : ℕ) → AsksSteps words gs n → n ≤ most_steps) }
    ensures missing { (look : Look) (names : List (List ℕ)) (j k : ℕ) → StopsAt (Some look) 0 names j Missing → (StopsAt (Some look) 0 names k Failed ↔ k < j) }
    ensures large { (look : Look) (names : List (List ℕ)) (j k : ℕ) (stop : Stop) → stop ≢ Missing → stop ≢ Failed → StopsAt (Some look) 0 names j stop
        → (StopsAt (Some look) 0 names k Failed ↔ k ≤ j) }
    ensures read { (look : Look) (names texts : List (List ℕ)) (k : ℕ) → AreHeld (Some look) 0 names texts → (StopsAt (Some look) 0 names k Failed ↔ k < length names) }
{}
