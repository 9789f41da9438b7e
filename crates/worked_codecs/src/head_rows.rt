//! The heads of replies.

ghost use Rattle.std.specs.Prelude.{◌≤◌, IsTrue, length};
ghost use Rattle.http_cut.specs.Reply.{is_reply_status, is_in_line};

use http_cut::{ReplyHead, write_head};

/// Whether the head is exactly this text.
fn is_text(head: &ReplyHead, want: &[u8]) -> bool
    requires status { IsTrue (is_reply_status head.now.status) }
    requires location { length head.now.location.now ≤ 700 }
    requires location_line { IsTrue (is_in_line head.now.location.now) }
    requires allow { length head.now.allow.now ≤ 64 }
    requires allow_line { IsTrue (is_in_line head.now.allow.now) }
{
    let mut room = [0xee; 1_024];
    let len = write_head(head, &mut room);
    &room[..len] == want
}

/// RFC 9112, section 4, and RFC 9110, sections 8.6, 10.2.1 and 10.2.2.
#[test]
fn writes_the_lines_in_order(rt: HostRuntime) {
    let nothing = ReplyHead {
        status: 204,
        close: false,
        location: b"",
        allow: b"",
        json: false,
        length: 0,
    };
    assert!(rt; is_text(&nothing, b"HTTP/1.1 204 No Content\r\n\r\n"));

    let location =
        b"/restconf/data/ietf-dots-data-channel:dots-data/dots-client=dz6pHjaADkaFTbjr0JGBpw";
    let created = ReplyHead {
        status: 201,
        location,
        ..nothing
    };
    assert!(rt;
        is_text(
            &created,
            b"HTTP/1.1 201 Created\r\nLocation: /restconf/data/ietf-dots-data-channel:dots-data/dots-client=dz6pHjaADkaFTbjr0JGBpw\r\nContent-Length: 0\r\n\r\n",
        )
    );

    let printed = ReplyHead {
        status: 200,
        json: true,
        length: 83,
        ..nothing
    };
    assert!(rt;
        is_text(
            &printed,
            b"HTTP/1.1 200 OK\r\nContent-Type: application/yang-data+json\r\nContent-Length: 83\r\n\r\n",
        )
    );

    let all = ReplyHead {
        status: 413,
        close: true,
        location: b"/a",
        allow: b"GET, PUT",
        json: true,
        length: 8_192,
    };
    assert!(rt;
        is_text(
            &all,
            b"HTTP/1.1 413 Payload Too Large\r\nConnection: close\r\nLocation: /a\r\nAllow: GET, PUT\r\nContent-Type: application/yang-data+json\r\nContent-Length: 8192\r\n\r\n",
        )
    );
}
