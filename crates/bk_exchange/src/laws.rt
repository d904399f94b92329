//! What follows from the definitions.
ghost use Rattle.std.specs.Prelude.{◌≡◌, ◌⊎◌, ℕ, ◌+◌, ◌≤◌, List, [], ◌∷◌, ◌++◌, length, drop, IsTrue, true, false};
ghost use Rattle.std.specs.Prelude.{is_some, Option, None, Some};
ghost use Rattle.bk_base.specs.declared.calls.Call.TheVariants.{Delete as delete_call, Get as get_call};
ghost use Rattle.bk_base.specs.declared.calls.Call.TheVariants.{Put as put_call};
ghost use Rattle.bk_base.specs.declared.calls.Call.TheVariants.{Sync as sync_call};
ghost use Rattle.bk_base.specs.declared.histories.Step.{Step};
ghost use Rattle.bk_base.specs.declared.numbers.Seq.{Seq};
ghost use Rattle.bk_base.specs.declared.requests.Reply.{Reply};
ghost use Rattle.bk_base.specs.declared.requests.Reply.TheVariants.{Absent, Disk, End as end_line, Numbered, Read};
ghost use Rattle.bk_base.specs.declared.requests.Reply.TheVariants.{Synced, Value};
ghost use Rattle.bk_base.specs.declared.requests.Request.{Request};
ghost use Rattle.bk_base.specs.declared.requests.Request.TheVariants.{Delete, Get, Put, Sync};
ghost use Rattle.bk_base.specs.declared.statuses.SessionEnd.{SessionEnd};
ghost use Rattle.bk_base.specs.declared.statuses.SessionEnd.TheVariants.{End, Syntax};
ghost use Rattle.bk_base.specs.declared.writes.Write.{Write};
ghost use Rattle.bk_laws.specs.History.{IsLegal, entries, log_of};
ghost use Rattle.bk_laws.specs.Log.{IsLog, last_seq, live, next_seq, put_of, winner};
ghost use Rattle.bk_laws.specs.Wire.{IsPartial, StandsIn};
ghost use Rattle.bk_exchange.specs.Answers.{Context, own_calls};
ghost use Rattle.bk_exchange.specs.Exchanges.{Before, Exchange, IsClosed, IsExchange, ListsAll, disk_lines, faults_in};
ghost use Rattle.bk_exchange.specs.Exchanges.{moment_of};
ghost use Rattle.bk_exchange.specs.Exchanges.{replies_of, requests_of, steps_of};
ghost use Rattle.bk_exchange.specs.OneThread.{HasOneStep, IsOwn, OneThread};
ghost use Rattle.bk_exchange.specs.Points.{AtOne, Point, events, point_of};
ghost use Rattle.bk_exchange.specs.Refusals.{Cause, is_listing, is_refusal};
ghost use Rattle.bk_exchange.specs.Sessions.{Session, Telling, Traffic, ends_at_limit, exchanges};
ghost use Rattle.bk_exchange.specs.Writes.{IsOneOf, Tells, told_writes, writes_in};

/// Each request that was served has its line, behind the rows of a listing.
pub fn answered()
    ensures { (c : Context) (p : Point) (x : Exchange) → IsExchange c p x → IsClosed x.request x.replies }
{}

/// VALUE shows the value that is live at the caller's own call, and NONE is said where none is; also among
/// many callers.
pub fn value_is_live()
    ensures value { (c : Context) (p : Point) (x : Exchange) (key value : List ℕ) → IsExchange c p x
        → IsLegal c.opening.settings.ttl p.state (entries x.steps)
        → x.request ≡ Get key → x.replies ≡ Value value ∷ []
        → Before c p x (get_call key (moment_of x.now))
        (λ log. live log key (moment_of x.now).0 c.opening.settings.ttl ≡ Some value) }
    ensures none { (c : Context) (p : Point) (x : Exchange) (key : List ℕ) → IsExchange c p x
        → IsLegal c.opening.settings.ttl p.state (entries x.steps)
        → x.request ≡ Get key → x.replies ≡ Absent ∷ []
        → Before c p x (get_call key (moment_of x.now))
        (λ log. live log key (moment_of x.now).0 c.opening.settings.ttl ≡ None) }
    ensures no_put { (c : Context) (p : Point) (x : Exchange) (key : List ℕ) → IsExchange c p x
        → IsLegal c.opening.settings.ttl p.state (entries x.steps)
        → x.request ≡ Delete key → x.replies ≡ Absent ∷ []
        → Before c p x (delete_call key (moment_of x.now))
        (λ log. is_some (put_of (winner log key)) ≡ false) }
{}

/// OK tells the next seq of the log, and SYNCED the last one, as the caller's own call was made; also among
/// many callers.
pub fn seqs_are_true()
    ensures put { (c : Context) (p : Point) (x : Exchange) (key value : List ℕ) (n : Seq) → IsExchange c p x
        → IsLegal c.opening.settings.ttl p.state (entries x.steps)
        → x.request ≡ Put key value → x.replies ≡ Numbered n ∷ []
        → Before c p x (put_call key value (moment_of x.now)) (λ log. n.0 ≡ next_seq log) }
    ensures synced { (c : Context) (p : Point) (x : Exchange) (n : Seq) → IsExchange c p x
        → IsLegal c.opening.settings.ttl p.state (entries x.steps)
        → x.request ≡ Sync → x.replies ≡ Synced n ∷ []
        → Before c p x sync_call (λ log. n.0 ≡ last_seq log) }
{}

/// The writes that a session's own calls made are those that its OK lines tell, in their order; also among
/// many callers.
pub fn ok_lines_tell_writes()
    ensures { (c : Context) (tells : Telling) (most : ℕ) (h h2 : List Step) (t : Traffic) (end : SessionEnd)
        (s : Session c tells most h h2 t end)
        → writes_in (own_calls c (events (point_of c.opening h) (steps_of (exchanges s.transcript))))
        ≡ told_writes (exchanges s.transcript) }
{}

/// On one thread the log gains exactly the writes that OK lines tell.
pub fn session_log()
    ensures { (c : Context) (tells : Telling) (most : ℕ) (h h2 : List Step) (t : Traffic) (end : SessionEnd)
        (first tried : List Write) (s : Session c tells most h h2 t end)
        (one : OneThread c h2 first tried s.transcript)
        → log_of c.opening h2 ≡ log_of c.opening h ++ told_writes (exchanges s.transcript) }
{}

/// On one thread no write stands that nobody asked for: it was there before, or an exchange's request asked
/// for it and its OK line tells its seq.
pub fn only_asked()
    ensures { (c : Context) (tells : Telling) (most : ℕ) (h h2 : List Step) (t : Traffic) (end : SessionEnd)
        (first tried : List Write) (s : Session c tells most h h2 t end) (w : Write)
        → OneThread c h2 first tried s.transcript → IsOneOf (log_of c.opening h2) w
        → IsOneOf (log_of c.opening h) w ⊎ AtOne (Tells w) (exchanges s.transcript) }
{}

/// At the end of the input all of it was read as requests, and each has its replies, all of them written.
pub fn end_says()
    ensures read { (c : Context) (tells : Telling) (most : ℕ) (h h2 : List Step) (t : Traffic)
        (s : Session c tells most h h2 t End) → IsTrue tells.source
        → (t.input ≡ requests_of (exchanges s.transcript)) × (t.left ≡ []) }
    ensures written { (c : Context) (tells : Telling) (most : ℕ) (h h2 : List Step) (t : Traffic)
        (s : Session c tells most h h2 t End) → IsTrue tells.sink
        → t.output ≡ replies_of (exchanges s.transcript) }
{}

/// A session doesn't end with SYNTAX where a request stands.
pub fn no_false_syntax()
    ensures { (c : Context) (tells : Telling) (most at : ℕ) (h h2 : List Step) (t : Traffic)
        (request : Request) (rest : List ℕ) → Session c tells most h h2 t (Syntax at)
        → IsTrue tells.source → StandsIn (drop at t.input) request rest → ⊥ }
{}

/// Where a session has taken all that it may and its last request isn't whole, it ends as too long, if it
/// wasn't ended by QUIT, by its sink or for memory.
pub fn long_at_limit()
    ensures { (c : Context) (tells : Telling) (most : ℕ) (h h2 : List Step) (t : Traffic) (end : SessionEnd)
        (s : Session c tells most h h2 t end) (part : List ℕ) → IsTrue tells.source
        → t.input ≡ (requests_of (exchanges s.transcript) ++ part) ++ t.left → IsPartial part
        → length (requests_of (exchanges s.transcript)) + length part ≡ most
        → ends_at_limit end ≡ true }
{}

/// A FOLD or KEYS that ends with END shows each pair that was live as its fold was opened, once, and no
/// other; also among many callers.
pub fn end_is_whole()
    ensures { (c : Context) (p : Point) (x : Exchange) (lines : List Reply) (n : ℕ) → IsExchange c p x
        → IsLog p.state.log → IsLegal c.opening.settings.ttl p.state (entries x.steps)
        → is_listing x.request ≡ true → x.replies ≡ lines ++ end_line n ∷ [] → ListsAll c p x }
{}

/// Each refusal line has its cause at one of the caller's own events in the same exchange.
pub fn refusals_are_caused()
    ensures { (c : Context) (p : Point) (x : Exchange) (lines : List Reply) (line : Reply) → IsExchange c p x
        → x.replies ≡ lines ++ line ∷ [] → is_refusal line ≡ true
        → Cause c x.request line (events p x.steps) }
{}

/// A session answers DISK at most as often as the disk had faults meanwhile.
pub fn disk_lines_are_faults()
    ensures { (c : Context) (tells : Telling) (most : ℕ) (h h2 : List Step) (t : Traffic) (end : SessionEnd)
        (s : Session c tells most h h2 t end)
        → disk_lines (exchanges s.transcript) ≤ faults_in (steps_of (exchanges s.transcript)) }
{}

/// On one thread a request is answered DISK only where its one event had a fault of the disk, and READ only
/// where its one event made a view that may fail. FOLD and KEYS have more events.
pub fn shown_by_its_own_event()
    ensures disk { (c : Context) (p : Point) (x : Exchange) → IsExchange c p x → IsOwn c x
        → is_listing x.request ≡ false → x.replies ≡ Disk ∷ []
        → HasOneStep (λ step. 1 ≤ step.faults) x.steps }
    ensures read { (c : Context) (p : Point) (x : Exchange) → IsExchange c p x → IsOwn c x
        → is_listing x.request ≡ false → x.replies ≡ Read ∷ []
        → HasOneStep (λ step. 1 ≤ step.views) x.steps }
{}
