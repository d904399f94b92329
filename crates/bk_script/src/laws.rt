//! What holds of the lines of scripts: each is a law, proved once, on a function that does nothing.
ghost use Rattle.std.specs.Prelude.{◌≡◌, ◌++◌, ℕ, List};
ghost use Rattle.bk_script.specs.declared.lines.Line.{Line as AnyLine};
ghost use Rattle.bk_script.specs.declared.reader.Next.{Next as AnyNext};
ghost use Rattle.bk_script.specs.Lines.{Fits, line_text};
ghost use Rattle.bk_script.specs.Script.{Answers, IsRefused, IsUnended, NoneStands, Script, StandsNext};

/// No two lines have one text, and none begins another: where two lines, each with some rest, are
/// the same bytes, they are one line with one rest.
pub fn one_line()
    ensures { (one other : AnyLine) (rest more : List ℕ) → Fits one → Fits other
        → line_text one ++ rest ≡ line_text other ++ more → (one ≡ other) × (rest ≡ more) }
{}

/// A reader has one answer. So the text of a line is read back as that line, and where too little
/// is there, no line stands.
pub fn one_answer()
    ensures one { (script new other : Script) (answer another : AnyNext) → Answers answer script new
        → Answers another script other → (answer ≡ another) × (new ≡ other) }
    ensures unended { (script : Script) → IsUnended script.rest → NoneStands script }
{}

/// However a script is cut, its lines are the same: what stands or is refused at its front doesn't
/// change when more follows.
pub fn however_cut()
    ensures stands { (script : Script) (line : AnyLine) (rest more : List ℕ) → StandsNext script line rest
        → StandsNext (record script { rest = script.rest ++ more }) line (rest ++ more) }
    ensures refused { (script : Script) (more : List ℕ) → IsRefused script
        → IsRefused (record script { rest = script.rest ++ more }) }
{}
