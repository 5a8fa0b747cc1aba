// Letters that go from port to port.
ghost use Rattle.std.specs.Prelude.{◌≡◌};
ghost use Rattle.l4_mail.specs.Ports.{place};

use l4_mail::fabric::fabric;
use l4_mail::ports::Port;
use l4_mail::rests::{RestFault, rest};
use l4_types::ids::GlobalId;
use l4_types::letters::{Content, Letter, LetterHead};

/// Whether a letter could be posted.
pub(crate) fn send(port: &mut Port, to: u8, stamp: u64) -> bool
    ensures { place port.new ≡ place port.old }
{
    if port.reserve().is_err() || !port.has_room(to) {
        return false;
    }
    let content = Content::Gone(GlobalId::default());
    let Some(letter) = Letter::new(LetterHead { stamp, content }, &[]) else {
        return false;
    };
    port.post(to, letter);
    true
}

/// Whether the next letter is the one with this stamp, posted by `poster`.
pub(crate) fn gives(port: &mut Port, poster: u8, stamp: u64) -> bool {
    match port.take() {
        Some((from, letter)) => from == poster && letter.stamp() == stamp,
        None => false,
    }
}

fn may_move<T: Send>(_: &T) {}

// Whether a letter of this stamp arrives with the flush, and not before. The receiver has looked in
// vain then, so it looks again only since its bell is rung.
fn arrives(poster: &mut Port, receiver: &mut Port, stamp: u64) -> bool {
    let before = [receiver.take().is_some(), receiver.has_mail()];
    poster.flush();
    let after = [receiver.has_mail(), gives(receiver, 0, stamp)];
    (before, after) == ([false, false], [true, true])
}

// Whether one of two ports has room only to the other one, once that was reserved, and posts two
// letters.
fn posts_two(poster: &mut Port) -> bool {
    let had_room = poster.has_room(1);
    let is_first_posted = send(poster, 1, 7);
    let room = [poster.has_room(0), poster.has_room(1), poster.has_room(2)];
    let are_posted = is_first_posted && send(poster, 1, 8);
    are_posted && (had_room, room) == (false, [false, true, false])
}

// Two letters go through a ring with room for one, and each is seen until it is taken. No contract
// says that a ring is looked at anew.
#[test]
fn letters_arrive_in_order(rt: HostRuntime) {
    let mut ports = fabric(rt.alloc(), 2, 1).expect(&rt, "memory");
    let mut receiver = ports.pop().expect(&rt, "a port");
    let mut poster = ports.pop().expect(&rt, "a port");
    may_move(&poster);
    let arrive = [
        posts_two(&mut poster),
        arrives(&mut poster, &mut receiver, 7),
        arrives(&mut poster, &mut receiver, 8),
    ];
    assert!(rt; arrive == [true; 3]);
    let none = [
        receiver.has_mail(),
        receiver.take().is_some(),
        poster.take().is_some(),
    ];
    assert!(rt; none == [false; 3]);
}

#[test]
fn the_lowest_poster_comes_first(rt: HostRuntime) {
    let mut ports = fabric(rt.alloc(), 3, 4).expect(&rt, "memory");
    let mut third = ports.pop().expect(&rt, "a port");
    let mut second = ports.pop().expect(&rt, "a port");
    let mut first = ports.pop().expect(&rt, "a port");
    assert!(rt; [send(&mut third, 1, 5), send(&mut first, 1, 6)] == [true; 2]);
    third.flush();
    first.flush();
    assert!(rt; [gives(&mut second, 0, 6), gives(&mut second, 2, 5)] == [true; 2]);
}

#[test]
fn a_rest_wants_all_ports(rt: HostRuntime) {
    let mut ports = Vec::new(rt.alloc());
    let rested = rest(rt.alloc(), &mut ports);
    assert!(rt; matches!(rested, Err(RestFault::Numbers)));
}
