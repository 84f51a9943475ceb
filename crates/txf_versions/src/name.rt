// Names by which first opens and versions are sorted.
ghost use Rattle.std.specs.Prelude.{◌≡◌, []};
ghost use Rattle.ktm_links.specs.Numbers.{long_bytes, number_bytes};
ghost use Rattle.txf_versions.specs.Names.{holder_name, open_name, transaction_bytes, version_bytes};

use crate::opened::Opened;
use ktm_base::Id;
use ktm_links::{long_bytes, number_bytes};

/// The name of a first open by its transaction: the transaction, and then the file.
pub(crate) type OpenName = [u8; 16];

/// The name of a version: the file, and then the version.
pub(crate) type VersionName = [u8; 16];

/// The name of a first open by its version: the version's name, and then the transaction.
pub(crate) type HolderName = [u8; 24];

/// The bytes that the names of a transaction's first opens begin with.
pub(crate) fn transaction_bytes(transaction: Id) -> [u8; 8]
    ensures { result ≡ transaction_bytes transaction [] }
{
    let [a0, a1, a2, a3] = number_bytes(transaction.boot);
    let [b0, b1, b2, b3] = number_bytes(transaction.number);
    [a0, a1, a2, a3, b0, b1, b2, b3]
}

/// The name of a transaction's first open of a file.
pub(crate) fn open_name(transaction: Id, file: u64) -> OpenName
    ensures { result ≡ open_name transaction file }
{
    let [a0, a1, a2, a3, a4, a5, a6, a7] = transaction_bytes(transaction);
    let [b0, b1, b2, b3, b4, b5, b6, b7] = long_bytes(file);
    [
        a0, a1, a2, a3, a4, a5, a6, a7, b0, b1, b2, b3, b4, b5, b6, b7,
    ]
}

/// The name of a version, with which the names of its first opens begin.
pub(crate) fn version_name(file: u64, version: u64) -> VersionName
    ensures { result ≡ version_bytes file version [] }
{
    let [a0, a1, a2, a3, a4, a5, a6, a7] = long_bytes(file);
    let [b0, b1, b2, b3, b4, b5, b6, b7] = long_bytes(version);
    [
        a0, a1, a2, a3, a4, a5, a6, a7, b0, b1, b2, b3, b4, b5, b6, b7,
    ]
}

/// The name of a first open by its version.
pub(crate) fn holder_name(opened: Opened) -> HolderName
    ensures { result ≡ holder_name opened }
{
    let [a0, a1, a2, a3, a4, a5, a6, a7] = long_bytes(opened.file);
    let [b0, b1, b2, b3, b4, b5, b6, b7] = long_bytes(opened.version);
    let [c0, c1, c2, c3, c4, c5, c6, c7] = transaction_bytes(opened.transaction);
    [
        a0, a1, a2, a3, a4, a5, a6, a7, b0, b1, b2, b3, b4, b5, b6, b7, c0, c1, c2, c3, c4, c5, c6,
        c7,
    ]
}
