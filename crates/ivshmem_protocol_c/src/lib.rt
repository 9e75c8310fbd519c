// The library that a host links for the older device's server: one export for each call. It passes the call on to the function of
// the same name in crates/ivshmem_protocol, and has its clauses word for word.
#![tactic(auto)]

ghost use Rattle.std.specs.Prelude.{◌≡◌, length};
ghost use Rattle.ivshmem_protocol.specs.Promises.{ReadsInNumbers};
ghost use Rattle.server.specs.Serving.{Serves, started, join, leave};

use ivshmem_protocol::ReadNumbers;
use reader::Progress;
use server::{Served, Server, Started};

// The number of this interface. It stands in the function's name, so that what was compiled for another one does not link.
#[unsafe(no_mangle)]
pub extern "C" fn ivshmem_protocol_interface_1() -> u32
    ensures { result ≡ 1 }
{
    ivshmem_protocol::ivshmem_protocol_interface_1()
}

#[unsafe(no_mangle)]
pub extern "C" fn ivshmem_protocol_read(
    progress: Progress,
    counts: &mut [u8],
    vectors: u64,
    input: &[u8],
) -> ReadNumbers
    ensures { ReadsInNumbers vectors progress counts.old counts.new input.now result }
{
    ivshmem_protocol::ivshmem_protocol_read(progress, counts, vectors, input)
}

#[unsafe(no_mangle)]
pub extern "C" fn ivshmem_protocol_start(vectors: u64) -> Started
    ensures { result ≡ started vectors }
{
    ivshmem_protocol::ivshmem_protocol_start(vectors)
}

#[unsafe(no_mangle)]
pub extern "C" fn ivshmem_protocol_join(server: Server, buffer: &mut [u8]) -> Served
    ensures { Serves (join server (length buffer.old)) buffer.old buffer.new result }
{
    ivshmem_protocol::ivshmem_protocol_join(server, buffer)
}

#[unsafe(no_mangle)]
pub extern "C" fn ivshmem_protocol_leave(server: Server, id: u64, buffer: &mut [u8]) -> Served
    ensures { Serves (leave server id (length buffer.old)) buffer.old buffer.new result }
{
    ivshmem_protocol::ivshmem_protocol_leave(server, id, buffer)
}
