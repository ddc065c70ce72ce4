// RE: the ET data that a user left are read.
#![tactic(auto)]

ghost use Rattle.std.specs.Prelude.{◌≤◌, ◌≡◌, length};
ghost use Rattle.shares.specs.Chains.{re_buffer};
ghost use Rattle.shares.specs.Outcomes.{re_done, re_after};

use nucleus::{EtData, MAX_ET_DATA, Response};
use shares::{Done, Share};

// Writes the ET data at the front of a record buffer that has room for it. Of a length past them there are all the bytes.
fn write_data(held: EtData, buffer: &mut [u8])
    requires { held.length ≤ length buffer.old }
    ensures { buffer.new ≡ re_buffer held buffer.old }
{
    let n = usize::from(held.length).min(MAX_ET_DATA);
    buffer[..n].copy_from_slice(&held.bytes[..n]);
}

// RE.
pub fn re(share: Share, buffer: &mut [u8]) -> Done
    ensures value { result ≡ re_done share buffer.old }
    ensures buffer_after { buffer.new ≡ re_after share buffer.old }
{
    let n = usize::from(share.et_data.length);
    if buffer.len() < n {
        return shares::refused(Response::RecordLength, share);
    }
    write_data(share.et_data, buffer);
    shares::good(0, n, 0, share)
}
