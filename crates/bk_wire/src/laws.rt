//! What holds of the wire grammar: each is a law, proved once, on a function that does nothing.
ghost use Rattle.std.specs.Prelude.{◌≡◌, ◌⊎◌, ℕ, List, ◌++◌, Result};
ghost use Rattle.bk_base.specs.declared.requests.Request.{Request as AnyRequest};
ghost use Rattle.bk_base.specs.declared.requests.Reply.{Reply as AnyReply};
ghost use Rattle.bk_base.specs.Bounds.{AreBytes};
ghost use Rattle.bk_laws.specs.Wire.{Fits, request_text, StandsIn, NoneStands, IsPartial, IsBad};
ghost use Rattle.bk_laws.specs.Wire.{FitsReply, reply_text, ReplyStands, NoReplyStands, IsPartialReply, IsBadReply};
ghost use Rattle.bk_wire.specs.declared.reply_reader.ReadReply.{ReadReply};
ghost use Rattle.bk_wire.specs.declared.reply_reader.ReplyStop.{ReplyStop};
ghost use Rattle.bk_wire.specs.Replies.{Reads, IsReadBack};

/// No request begins another: where two requests, each with some rest, are the same bytes, they
/// are one request with one rest.
pub fn one_request()
    ensures { (one other : AnyRequest) (rest more : List ℕ) → Fits one → Fits other
        → request_text one ++ rest ≡ request_text other ++ more → (one ≡ other) × (rest ≡ more) }
{}

/// A stream is exactly one of three: the front of a request, a request with a rest, or bytes that
/// go on to no request.
pub fn one_answer()
    ensures each { (stream : List ℕ) → AreBytes stream → IsPartial stream
        ⊎ (((request : AnyRequest) × (rest : List ℕ) × StandsIn stream request rest) ⊎ IsBad stream) }
    ensures partial { (stream : List ℕ) → IsPartial stream → NoneStands stream }
    ensures bad { (stream : List ℕ) → IsBad stream → NoneStands stream × ¬ (IsPartial stream) }
{}

/// No reply begins another.
pub fn one_reply()
    ensures { (one other : AnyReply) (rest more : List ℕ) → FitsReply one → FitsReply other
        → reply_text one ++ rest ≡ reply_text other ++ more → (one ≡ other) × (rest ≡ more) }
{}

/// Bytes are exactly one of three: the front of a reply, a reply with a rest, or bytes that go on
/// to no reply.
pub fn one_reading()
    ensures each { (bytes : List ℕ) → AreBytes bytes → IsPartialReply bytes
        ⊎ (((reply : AnyReply) × (rest : List ℕ) × ReplyStands bytes reply rest) ⊎ IsBadReply bytes) }
    ensures partial { (bytes : List ℕ) → IsPartialReply bytes → NoReplyStands bytes }
    ensures bad { (bytes : List ℕ) → IsBadReply bytes → NoReplyStands bytes × ¬ (IsPartialReply bytes) }
{}

/// What was written of a reply is read back, whatever follows it.
pub fn read_back()
    ensures { (reply : AnyReply) (rest : List ℕ) (read : Result ReadReply ReplyStop) → FitsReply reply
        → Reads read (reply_text reply ++ rest) → IsReadBack reply read }
{}
