//! The requests that some hart has still to take. A request enters every queue at once; so one list
//! of them serves all harts, and a queue is the newest of it.

ghost use Rattle.std.specs.Prelude.{◌≡◌, ◌<◌, ◌∷◌, map, length};
ghost use Rattle.circular_buffer.specs.Buffer.{buffer};
ghost use Rattle.xl_hart_model.specs.Harts.{hart_asked, longest};
ghost use Rattle.xl_harts.specs.Views.{AllShort};

use crate::hart::Hart;
use circular_buffer::HeapCircularBuffer;
use xl_hart_model::Request;

/// Puts a request into every queue.
pub(crate) fn put(requests: &mut HeapCircularBuffer<Request>, harts: &mut [Hart], request: Request)
    requires room { length requests.old.items < requests.old.capacity }
    requires queues { AllShort harts.old }
    ensures requests { requests.new ≡ buffer (request ∷ requests.old.items) requests.old.capacity }
    ensures harts { harts.new ≡ map hart_asked harts.old }
{
    requests.push_front(request);
    ask_each(harts);
}

/// Puts a request more into the queue of each hart.
fn ask_each(harts: &mut [Hart])
    requires { AllShort harts.old }
    ensures { harts.new ≡ map hart_asked harts.old }
{
    let Some((first, rest)) = harts.split_first_mut() else {
        return;
    };
    first.ask();
    ask_each(rest);
}

/// The length of the longest queue.
pub(crate) fn longest_of(harts: &[Hart]) -> usize
    ensures { result ≡ longest harts.now }
{
    let Some((hart, rest)) = harts.split_first() else {
        return 0;
    };
    hart.waiting().max(longest_of(rest))
}
