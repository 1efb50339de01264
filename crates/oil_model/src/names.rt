//! Names of objects, read and copied.
ghost use Rattle.std.specs.{Prelude.{◌≡◌, IsTrue, All, IfOk, codes}, Str.{bytes_eq}};
ghost use Rattle.osek_values.specs.Names.{is_name};
ghost use Rattle.oil_tree.specs.declared.tree.Object.{Object};

use oil_tree::Object;
use osek_values::{Memory, Name};
use std::alloc::Global;

/// Whether two names or words are the same.
pub fn same(a: &[u8], b: &[u8]) -> bool
    ensures { result ≡ bytes_eq a.now b.now }
{
    a == b
}

/// The name of the mode that always exists.
pub fn default_mode(alloc: Global) -> Result<Name, Memory>
    ensures { IfOk result (λ name. name ≡ codes "OSDEFAULTAPPMODE") }
{
    let bytes = b"OSDEFAULTAPPMODE".to_vec(alloc)?;
    Ok(Name::new(bytes))
}

/// The name of the resource that every task may take.
pub fn scheduler(alloc: Global) -> Result<Name, Memory>
    ensures { IfOk result (λ name. name ≡ codes "RES_SCHEDULER") }
{
    let bytes = b"RES_SCHEDULER".to_vec(alloc)?;
    Ok(Name::new(bytes))
}

/// Reads each object's name, for a contract knows the form of a name only where it is read.
pub fn read_names(objects: &[Object])
    ensures { All (λ (o : Object). IsTrue (is_name o.name)) objects.now }
{
    for object in objects {
        object.name.as_bytes();
    }
}
