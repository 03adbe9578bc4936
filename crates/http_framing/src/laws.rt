// Laws of what stands at the front. The function has an empty body: its clauses are the laws.

ghost use Rattle.std.specs.Prelude.{◌≡◌, ◌++◌, ◌<◌, ◌≤◌, [], ℕ, Bool, List, Option, Some, drop, length, true};
ghost use Rattle.httparse.specs.Grammar.{ReadsRequest, RequestHead};
ghost use Rattle.http_messages.specs.Requests.{RequestValue};
ghost use Rattle.http_framing.specs.declared.fault.FrameFault.{FrameFault};
ghost use Rattle.http_framing.specs.Fronts.{Front, HasFront, continues, is_settled, refused, whole};
ghost use Rattle.http_framing.specs.Heads.{HeadValue, IsRead, blank_length, head_bytes, head_end, skip_blank};

/// Bytes read as one head at most, and one thing stands at their front. A head of the grammar in front of the bytes up to and with the
/// first empty line is all of them, so the body begins behind that line. Where a head has ended, later bytes change neither its end nor
/// whether a continue is due. A request stays when bytes come behind, and so does a refusal, but for one that the end of the input or of the
/// stream gave. A request takes bytes from the front.
pub fn front_laws()
    ensures reading { (bytes : List ℕ) (a b : Option HeadValue) → IsRead bytes a → IsRead bytes b → a ≡ b }
    ensures whole_head { (bytes rest : List ℕ) (h : RequestHead) → ReadsRequest (head_bytes bytes) h rest → rest ≡ [] }
    ensures one { (room : ℕ) (over : Bool) (bytes : List ℕ) (a b : Front) → HasFront room over bytes a → HasFront room over bytes b → a ≡ b }
    ensures head { (bytes more : List ℕ) (end : ℕ) → head_end (skip_blank bytes) ≡ Some end → (blank_length (bytes ++ more) ≡ blank_length bytes) × (head_end (skip_blank (bytes ++ more)) ≡ Some end) × (head_bytes (bytes ++ more) ≡ head_bytes bytes) }
    ensures request { (room : ℕ) (over later : Bool) (bytes more : List ℕ) (request : RequestValue) (due ends : Bool) (rest : List ℕ) → HasFront room over bytes (whole request due ends rest) → HasFront room later (bytes ++ more) (whole request due ends (rest ++ more)) }
    ensures refusal { (room : ℕ) (over later : Bool) (bytes more : List ℕ) (fault : FrameFault) (due : Bool) → HasFront room over bytes (refused fault due) → is_settled fault ≡ true → HasFront room later (bytes ++ more) (refused fault due) }
    ensures continued { (room : ℕ) (over later : Bool) (bytes more : List ℕ) (end : ℕ) (a b : Front) → head_end (skip_blank bytes) ≡ Some end → HasFront room over bytes a → HasFront room later (bytes ++ more) b → continues a ≡ continues b }
    ensures takes { (room : ℕ) (over : Bool) (bytes : List ℕ) (request : RequestValue) (due ends : Bool) (rest : List ℕ) → HasFront room over bytes (whole request due ends rest) → (used : ℕ) × (0 < used) × (used ≤ length bytes) × (rest ≡ drop used bytes) }
{}
