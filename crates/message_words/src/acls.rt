//! The fields of the messages about access control.

use crate::codes::{operation_name, pattern_type_name, permission_type_name, resource_type_name};
use crate::sheet::{Fields, Sheet};
use msg_acl::{
    BindingEntry, CreateAclsReply, CreateAclsRequest, CreatedAcl, DeleteAclsReply,
    DeleteAclsRequest, DeletedAcl, DeletedAcls, DescribeAclsReply, DescribeAclsRequest,
    DescribedAcl, DescribedResource, FilterEntry,
};
use std::alloc::AllocError;

/// Appends a resource type: its number and its name, such as `2 TOPIC`.
fn push_resource_type(sheet: &mut Sheet, field: &str, kind: i8) -> Result<(), AllocError> {
    sheet.push_coded(field, kind, resource_type_name(kind))
}

/// Appends a pattern type: its number and its name, such as `3 LITERAL`.
fn push_pattern_type(sheet: &mut Sheet, field: &str, pattern: i8) -> Result<(), AllocError> {
    sheet.push_coded(field, pattern, pattern_type_name(pattern))
}

/// Appends the fields `operation` and `permission_type`, each with its number and its name, such as `3 READ` and `3 ALLOW`.
fn push_permission(sheet: &mut Sheet, operation: i8, permission: i8) -> Result<(), AllocError> {
    sheet.push_coded("operation", operation, operation_name(operation))?;
    sheet.push_coded(
        "permission_type",
        permission,
        permission_type_name(permission),
    )
}

impl Fields for FilterEntry {
    /// Appends an ACL filter: which bindings a DescribeAcls or a DeleteAcls is about. `null` fields match any value.
    fn push_fields(&self, sheet: &mut Sheet) -> Result<(), AllocError> {
        push_resource_type(sheet, "resource_type_filter", self.kind)?;
        sheet.push_nullable("resource_name_filter", &self.name)?;
        push_pattern_type(sheet, "pattern_type_filter", self.pattern)?;
        sheet.push_nullable("principal_filter", &self.principal)?;
        sheet.push_nullable("host_filter", &self.host)?;
        push_permission(sheet, self.operation, self.permission)
    }
}

/// Appends the fields of an ACL binding. `pattern_type` is the name of the pattern type's field, which CreateAcls names
/// otherwise.
fn push_binding(
    sheet: &mut Sheet,
    binding: &BindingEntry,
    pattern_type: &str,
) -> Result<(), AllocError> {
    push_resource_type(sheet, "resource_type", binding.kind)?;
    sheet.push_text("resource_name", &binding.name)?;
    push_pattern_type(sheet, pattern_type, binding.pattern)?;
    sheet.push_text("principal", &binding.principal)?;
    sheet.push_text("host", &binding.host)?;
    push_permission(sheet, binding.operation, binding.permission)
}

/// A binding that is to be created.
impl Fields for BindingEntry {
    /// Appends an ACL binding that a CreateAcls request asks for.
    fn push_fields(&self, sheet: &mut Sheet) -> Result<(), AllocError> {
        push_binding(sheet, self, "resource_pattern_type")
    }
}

impl Fields for DescribeAclsRequest {
    /// Appends the request's only part, its filter.
    fn push_fields(&self, sheet: &mut Sheet) -> Result<(), AllocError> {
        self.filter.push_fields(sheet)
    }
}

impl Fields for DescribedAcl {
    /// Appends a binding of a resource in a DescribeAcls response: who may or may not do what, and from where.
    fn push_fields(&self, sheet: &mut Sheet) -> Result<(), AllocError> {
        sheet.push_text("principal", &self.principal)?;
        sheet.push_text("host", &self.host)?;
        push_permission(sheet, self.operation, self.permission)
    }
}

impl Fields for DescribedResource {
    /// Appends a resource of a DescribeAcls response, and its bindings.
    fn push_fields(&self, sheet: &mut Sheet) -> Result<(), AllocError> {
        push_resource_type(sheet, "resource_type", self.kind)?;
        sheet.push_text("resource_name", &self.name)?;
        push_pattern_type(sheet, "pattern_type", self.pattern)?;
        sheet.push_list("acls", self.acls.as_slice())
    }
}

impl Fields for DescribeAclsReply {
    /// Appends the response: its throttle time, its error, and the resources with the bindings that were found.
    fn push_fields(&self, sheet: &mut Sheet) -> Result<(), AllocError> {
        sheet.push("throttle_time_ms", self.throttle)?;
        sheet.push_error("error_code", self.error)?;
        sheet.push_nullable("error_message", &self.message)?;
        sheet.push_list("resources", self.resources.as_slice())
    }
}

impl Fields for CreateAclsRequest {
    /// Appends the bindings that are to be created.
    fn push_fields(&self, sheet: &mut Sheet) -> Result<(), AllocError> {
        sheet.push_list("creations", self.creations.as_slice())
    }
}

impl Fields for CreatedAcl {
    /// Appends how the creation of one binding went: its error and the error's message.
    fn push_fields(&self, sheet: &mut Sheet) -> Result<(), AllocError> {
        sheet.push_error("error_code", self.error)?;
        sheet.push_nullable("error_message", &self.message)
    }
}

impl Fields for CreateAclsReply {
    /// Appends the response: its throttle time, and how the creation of each binding went.
    fn push_fields(&self, sheet: &mut Sheet) -> Result<(), AllocError> {
        sheet.push("throttle_time_ms", self.throttle)?;
        sheet.push_list("results", self.results.as_slice())
    }
}

impl Fields for DeleteAclsRequest {
    /// Appends the filters of the bindings that are to be deleted.
    fn push_fields(&self, sheet: &mut Sheet) -> Result<(), AllocError> {
        sheet.push_list("filters", self.filters.as_slice())
    }
}

impl Fields for DeletedAcl {
    /// Appends a binding that a filter of a DeleteAcls request matched: the error of its deletion, the message, and the binding.
    fn push_fields(&self, sheet: &mut Sheet) -> Result<(), AllocError> {
        sheet.push_error("error_code", self.error)?;
        sheet.push_nullable("error_message", &self.message)?;
        push_binding(sheet, &self.binding, "pattern_type")
    }
}

impl Fields for DeletedAcls {
    /// Appends the result of one filter of a DeleteAcls request: its error and message, and the bindings that it matched.
    fn push_fields(&self, sheet: &mut Sheet) -> Result<(), AllocError> {
        sheet.push_error("error_code", self.error)?;
        sheet.push_nullable("error_message", &self.message)?;
        sheet.push_list("matching_acls", self.matches.as_slice())
    }
}

impl Fields for DeleteAclsReply {
    /// Appends the response: its throttle time, and the result of each filter.
    fn push_fields(&self, sheet: &mut Sheet) -> Result<(), AllocError> {
        sheet.push("throttle_time_ms", self.throttle)?;
        sheet.push_list("filter_results", self.results.as_slice())
    }
}
