//! What is to be done with a resource.

ghost use Rattle.std.specs.Prelude.{◌≡◌, ◌==◌, IfOk};
ghost use Rattle.std.specs.List.{list_any};
ghost use Rattle.std.specs.Option.{option_copied};
ghost use Rattle.dots_keys.specs.Operations.{method_in, method_of, is_client_name, client_name, is_identifier, identifier, optional, domain_of, mitigation_path, mitigation_operation, config_operation, operation_of};
ghost use Rattle.dots_keys.specs.OperationValues.{path_value, operation_value, HasNames, IsNamed};
ghost use Rattle.dots_keys.specs.PathValues.{resource_value};
ghost use Rattle.dots_keys.specs.Results.{Gives, Reads};

use crate::head_request::MitigationPath;
use crate::path::Resource;
use crate::reject::Reject;
use dots_lists::{Name, is_name, value_of};
use std::alloc::Global;

/// The methods that resources have (RFC 7252, section 5.8).
#[derive(Clone, Copy)]
pub enum Method {
    Get,
    Put,
    Delete,
}

/// The parameters of a path to a mitigation, as parts of the message.
#[derive(Clone, Copy)]
pub struct Parameters<'a> {
    pub cdid: Option<&'a [u8]>,
    pub cuid: &'a [u8],
    pub mid: Option<u32>,
}

/// What the method wants of the resource. A PUT and a DELETE have a mid or a sid.
#[derive(Clone, Copy)]
pub enum Operation<'a> {
    PutMitigation(Parameters<'a>),
    GetMitigation(Parameters<'a>),
    DeleteMitigation(Parameters<'a>),
    PutConfig(u32),
    GetConfig(Option<u32>),
    DeleteConfig(u32),
    PutHeartbeat,
}

/// The method of a code (RFC 7252, section 12.1.1).
fn method_in(code: u8) -> Option<Method>
    ensures { result ≡ method_in code }
{
    match code {
        1 => Some(Method::Get),
        3 => Some(Method::Put),
        4 => Some(Method::Delete),
        _ => None,
    }
}

/// The method of a code, if the resource has it: a heartbeat has PUT alone.
pub fn method_of(resource: &Resource<'_>, code: u8) -> Result<Method, Reject>
    ensures { result ≡ method_of (resource_value resource.now) code }
{
    match (resource, method_in(code)) {
        (_, None) => Err(Reject::Method),
        (_, Some(Method::Put)) => Ok(Method::Put),
        (Resource::Heartbeat, Some(_)) => Err(Reject::Method),
        (_, Some(method)) => Ok(method),
    }
}

/// Whether this is a name without a slash.
fn is_client_name(text: &[u8]) -> bool
    ensures { result ≡ is_client_name text.now }
{
    is_name(text) && !has_slash(text)
}

fn has_slash(text: &[u8]) -> bool
    ensures { result ≡ list_any (λ byte. byte == 47) text.now }
{
    text.iter().any(|byte| *byte == b'/')
}

/// A name without a slash.
fn client_name(text: &[u8]) -> Result<&[u8], Reject>
    ensures { Reads (λ name. name.now) result (client_name text.now) }
{
    if !is_client_name(text) {
        return Err(Reject::Parameter);
    }
    Ok(text)
}

/// The number of a mid or a sid: 1 to 10 decimal digits, below 2^32.
fn identifier(text: &[u8]) -> Result<u32, Reject>
    ensures { result ≡ identifier text.now }
{
    if text.is_empty() {
        return Err(Reject::Parameter);
    }
    if text.len() > 10 {
        return Err(Reject::Parameter);
    }
    let Some(number) = value_of(text) else {
        return Err(Reject::Parameter);
    };
    if number > u64::from(u32::MAX) {
        return Err(Reject::Parameter);
    }
    Ok(number as u32)
}

/// The number of a mid or a sid that may be missing.
fn optional_identifier(text: Option<&[u8]>) -> Result<Option<u32>, Reject>
    ensures { result ≡ optional identifier (option_copied text.entry) }
{
    match text {
        None => Ok(None),
        Some(text) => {
            let number = identifier(text)?;
            Ok(Some(number))
        }
    }
}

/// The domain for which a gateway asks. What a client says of it is passed over.
fn domain_of<'a>(gateway: bool, cdid: Option<&'a [u8]>) -> Result<Option<&'a [u8]>, Reject>
    ensures { Reads option_copied result (domain_of gateway (option_copied cdid.entry)) }
{
    if !gateway {
        return Ok(None);
    }
    let Some(text) = cdid else {
        return Err(Reject::Parameter);
    };
    let name = client_name(text)?;
    Ok(Some(name))
}

/// The parameters of a path to a mitigation, if none is missing and each has its form.
fn checked_parameters<'a>(
    gateway: bool,
    cdid: Option<&'a [u8]>,
    cuid: Option<&'a [u8]>,
    mid: Option<&'a [u8]>,
) -> Result<Parameters<'a>, Reject>
    ensures value { Reads path_value result (mitigation_path gateway (option_copied cdid.entry) (option_copied cuid.entry) (option_copied mid.entry)) }
    ensures named { IfOk result (λ parameters. HasNames (path_value parameters)) }
{
    let cdid = domain_of(gateway, cdid)?;
    let Some(text) = cuid else {
        return Err(Reject::Parameter);
    };
    let cuid = client_name(text)?;
    let mid = optional_identifier(mid)?;
    Ok(Parameters { cdid, cuid, mid })
}

/// What the method wants of mitigations.
fn mitigation_operation<'a>(
    method: Method,
    parameters: Parameters<'a>,
) -> Result<Operation<'a>, Reject>
    ensures { Reads operation_value result (mitigation_operation method (path_value parameters.entry)) }
{
    match (method, parameters.mid) {
        (Method::Get, _) => Ok(Operation::GetMitigation(parameters)),
        (_, None) => Err(Reject::Parameter),
        (Method::Put, Some(_)) => Ok(Operation::PutMitigation(parameters)),
        (Method::Delete, Some(_)) => Ok(Operation::DeleteMitigation(parameters)),
    }
}

/// What the method wants of the configuration.
fn config_operation<'a>(method: Method, sid: Option<u32>) -> Result<Operation<'a>, Reject>
    ensures { Reads operation_value result (config_operation method sid) }
{
    match (method, sid) {
        (Method::Get, sid) => Ok(Operation::GetConfig(sid)),
        (_, None) => Err(Reject::Parameter),
        (Method::Put, Some(sid)) => Ok(Operation::PutConfig(sid)),
        (Method::Delete, Some(sid)) => Ok(Operation::DeleteConfig(sid)),
    }
}

/// What the method wants of the resource, if no parameter is missing and each has its form.
pub fn operation_of<'a>(
    resource: Resource<'a>,
    method: Method,
    gateway: bool,
) -> Result<Operation<'a>, Reject>
    ensures value { Reads operation_value result (operation_of (resource_value resource.entry) method gateway) }
    ensures named { IfOk result IsNamed }
{
    match resource {
        Resource::Mitigation { cdid, cuid, mid } => {
            let parameters = checked_parameters(gateway, cdid, cuid, mid)?;
            mitigation_operation(method, parameters)
        }
        Resource::Config { sid } => {
            let sid = optional_identifier(sid)?;
            config_operation(method, sid)
        }
        Resource::Heartbeat => Ok(Operation::PutHeartbeat),
    }
}

impl<'a> Parameters<'a> {
    /// The parameters as values of their own.
    pub fn path(&self, alloc: Global) -> Result<MitigationPath, Reject>
        requires { HasNames (path_value self.now) }
        ensures { Gives result (Ok (path_value self.now)) }
    {
        let cdid = match self.cdid {
            Some(text) => Name::new(alloc, text)?,
            None => None,
        };
        let Some(cuid) = Name::new(alloc, self.cuid)? else {
            unreachable!();
        };
        Ok(MitigationPath {
            cdid,
            cuid,
            mid: self.mid,
        })
    }
}
