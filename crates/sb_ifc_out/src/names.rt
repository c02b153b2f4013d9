//! Identifiers of names.

ghost use Rattle.std.specs.Prelude.{◌≡◌, ◌++◌, ℕ, List, IfOk, codes, decimal};
ghost use Rattle.sha1.specs.Sha1.{Holds};
ghost use Rattle.sb_ifc_out.specs.Guids.{guid_of_digest, guid_of_name, relation_name, virtual_name};
ghost use Rattle.sb_ifc_out.specs.Steps.{beginning, IsKeptFor, IsBegunFor};

use crate::guids::guid;
use itoa::Buffer;
use sha1::Sha1;
use std::alloc::AllocError;
use uuid::Builder;

/// The namespace of all names.
const NAMESPACE: [u8; 16] = [
    0x00, 0x11, 0x22, 0x33, 0x44, 0x55, 0x66, 0x77, 0x88, 0x99, 0xaa, 0xbb, 0xcc, 0xdd, 0xee, 0xff,
];

/// What the names of a space's boundaries begin with: the digest has taken it in once for all of
/// them, since a GlobalId may be long.
#[derive(Drop)]
pub struct Names {
    pub space: u32,
    pub begun: Sha1,
}

/// The names of this space: those at hand where they are of this space.
pub fn names_of(kept: Option<Names>, space: u32, global_id: &[u8]) -> Names
    requires { IsKeptFor space global_id.now kept }
    ensures { IsBegunFor space global_id.now result }
{
    match kept {
        Some(names) => {
            if names.space == space {
                names
            } else {
                begin(space, global_id)
            }
        }
        None => begin(space, global_id),
    }
}

fn begin(space: u32, global_id: &[u8]) -> Names
    ensures { IsBegunFor space global_id.now result }
{
    let begun = taken_in(global_id);
    Names { space, begun }
}

fn taken_in(global_id: &[u8]) -> Sha1
    ensures { Holds result (beginning global_id.now) }
{
    let mut digest = Sha1::new();
    digest.update(&NAMESPACE);
    digest.update(global_id);
    digest.update(b"/");
    digest
}

/// The identifier of the relation of the boundary with this id.
pub fn relation_identifier(begun: &Sha1, id: u64) -> Result<[u8; 22], AllocError>
    ensures { (global_id : List ℕ) → Holds begun.now (beginning global_id)
        → IfOk result (λ text. text ≡ guid_of_name (relation_name global_id id)) }
{
    let digest = with_id(begun, id)?;
    Ok(guid_of(digest.finalize()))
}

/// The identifier of the virtual element of the boundary with this id.
pub fn virtual_identifier(begun: &Sha1, id: u64) -> Result<[u8; 22], AllocError>
    ensures { (global_id : List ℕ) → Holds begun.now (beginning global_id)
        → IfOk result (λ text. text ≡ guid_of_name (virtual_name global_id id)) }
{
    let mut digest = with_id(begun, id)?;
    digest.update(b"/V");
    Ok(guid_of(digest.finalize()))
}

/// The digest of what was begun, and of an id in decimal.
fn with_id(begun: &Sha1, id: u64) -> Result<Sha1, AllocError>
    ensures { (front : List ℕ) → Holds begun.now front
        → IfOk result (λ digest. Holds digest (front ++ decimal id)) }
{
    let mut digest = begun.clone()?;
    let mut buffer = Buffer::new();
    digest.update(buffer.format(id).as_bytes());
    Ok(digest)
}

/// The identifier of a digest.
#[tactic(auto, unfolding(crate::specs::Guids::guid_of_digest))]
fn guid_of(digest: [u8; 20]) -> [u8; 22]
    ensures { result ≡ guid_of_digest digest }
{
    let mut bytes = [0u8; 16];
    bytes.copy_from_slice(&digest[..16]);
    guid(Builder::from_sha1_bytes(bytes).into_uuid().as_u128())
}
