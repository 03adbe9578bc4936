// Worked examples, computed over the definitions. The function has an empty body: its clauses are the examples.

ghost use Rattle.std.specs.Prelude.{◌≡◌, ◌++◌, [], ◌∷◌, None, Some, Ok, Err, codes, true, false};
ghost use Rattle.http_framing.specs.Examples.{a_get, a_post, host, look, put, with_field};
ghost use Rattle.http_framing.specs.Fronts.{finished, front_of, refused, wants, whole};
ghost use Rattle.http_framing.specs.Heads.{head_bytes, head_length, skip_blank};
ghost use Rattle.http_framing.specs.HeadTests.{asks_continue, body_length, ends_stream};
ghost use Rattle.http_framing.specs.declared.fault.FrameFault.TheVariants.{BadHead, BodyTooLarge, Host, Length, NoLength, StreamTooLarge, TransferEncoding, Truncated, Version};

/// Where a head begins and ends.
pub fn worked_ends()
    // Lines may end with a line feed alone.
    ensures end { head_length (codes "GET /a HTTP/1.1\nHost: d\n\nrest") ≡ Some 25 }
    ensures carriage { head_length (codes "GET /a HTTP/1.1\r\nHost: d\r\n\r\nrest") ≡ Some 28 }
    ensures mixed { head_length (codes "a\n\r\n\r\n") ≡ Some 4 }
    // Two carriage returns before a line feed are no line end.
    ensures twice { head_length (codes "a\n\r\r\n") ≡ None }
    ensures cut { head_length (codes "GET /a HTTP/1.1\nHost: d\n\r") ≡ None }
    ensures blank { skip_blank (codes "\r\n\r\r\nGET") ≡ codes "GET" }
    ensures head { head_bytes (codes "\r\nGET /a HTTP/1.1\nHost: d\n\nrest") ≡ codes "GET /a HTTP/1.1\nHost: d\n\n" }
    ensures none { head_bytes (codes "\r\nGET /a HTTP/1.1\n") ≡ [] }
{}

/// The tests of a head.
pub fn worked_tests()
    ensures right { body_length a_get ≡ Ok 0 }
    ensures version { body_length (record a_get { minor = 0 }) ≡ Err Version }
    ensures no_host { body_length (record a_get { fields = [] }) ≡ Err Host }
    ensures two_hosts { body_length (with_field (codes "HOST") (codes "e") a_get) ≡ Err Host }
    ensures coding { body_length (with_field (codes "Transfer-Encoding") (codes "chunked") a_get) ≡ Err TransferEncoding }
    ensures no_length { body_length (record a_get { method = codes "POST" }) ≡ Err NoLength }
    ensures empty { body_length (a_post []) ≡ Err Length }
    ensures letter { body_length (a_post (codes "1x")) ≡ Err Length }
    ensures sign { body_length (a_post (codes "+1")) ≡ Err Length }
    ensures two { body_length (with_field (codes "content-length") (codes "3") (a_post (codes "3"))) ≡ Err Length }
    ensures greatest { body_length (a_post (codes "33554432")) ≡ Ok 33554432 }
    ensures above { body_length (a_post (codes "33554433")) ≡ Err BodyTooLarge }
    ensures long { body_length (a_post (codes "1000000000000000000000000")) ≡ Err BodyTooLarge }
    ensures zeros { body_length (a_post (codes "00000000000000000000033554432")) ≡ Ok 33554432 }
    ensures zeros_read { body_length (a_post (codes "007")) ≡ Ok 7 }
    // What the reply and the stream do.
    ensures asks { asks_continue (with_field (codes "expect") (codes "100-Continue") (a_post (codes "0"))) ≡ true }
    ensures get_asks { asks_continue (with_field (codes "Expect") (codes "100-continue") a_get) ≡ false }
    ensures list_asks { asks_continue (with_field (codes "Expect") (codes "100-continue, x") (a_post (codes "0"))) ≡ false }
    ensures ends { ends_stream (with_field (codes "Connection") (codes "keep-alive, Close\t") a_get) ≡ true }
    ensures parameter { ends_stream (with_field (codes "Connection") (codes "close;x") a_get) ≡ false }
    ensures quoted { ends_stream (with_field (codes "Connection") (codes "\"close\"") a_get) ≡ false }
    ensures goes_on { ends_stream a_get ≡ false }
{}

/// What stands at the front.
pub fn worked_fronts()
    ensures ended { front_of 100 true (codes "\r\n\r\n") None ≡ finished }
    ensures waits { front_of 100 false [] None ≡ wants false }
    ensures full { front_of 2 false (codes "\r\n") None ≡ refused StreamTooLarge false }
    ensures cut_head { front_of 100 true (codes "GET /a HTTP/1.1\r\n") None ≡ refused Truncated false }
    ensures bad { front_of 100 true (codes "GET\n\n") None ≡ refused BadHead false }
    // The head reads as a GET without a body; the next request stands behind it.
    ensures get { front_of 100 false (codes "\r\nGET /a HTTP/1.1\nHost: d\n\nGET") (Some a_get) ≡ whole look false false (codes "GET") }
    // A body of three bytes of which two are there.
    ensures part { front_of 100 false (codes "POST /a HTTP/1.1\nHost: d\nContent-Length: 003\n\nab") (Some (a_post (codes "003"))) ≡ wants false }
    ensures cut_body { front_of 100 true (codes "POST /a HTTP/1.1\nHost: d\nContent-Length: 003\n\nab") (Some (a_post (codes "003"))) ≡ refused Truncated false }
    ensures full_body { front_of 47 false (codes "POST /a HTTP/1.1\nHost: d\nContent-Length: 003\n\nab") (Some (a_post (codes "003"))) ≡ refused StreamTooLarge false }
    ensures post { front_of 100 false (codes "POST /a HTTP/1.1\nHost: d\nContent-Length: 003\n\nabcd") (Some (a_post (codes "003"))) ≡ whole put false false (codes "d") }
{}
