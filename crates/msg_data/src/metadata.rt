//! Metadata, version 1: the brokers of the cluster, and topics with their partitions.

use std::alloc::Global;
use wire_types::{
    Cursor, ErrorCode, Items, ReadFault, Shared, Text, Wire, WriteFault, deduct, deduct_array,
    deduct_nullable, deduct_nullable_array, deduct_string, read_array, read_nullable_array,
    write_array, write_bool, write_i32, write_nullable, write_nullable_array, write_string,
};

/// Asks for the metadata of these topics, or of all topics where the list is null. An empty list asks for none.
#[derive(Drop, PartialEq, Eq)]
pub struct MetadataRequest {
    pub topics: Option<Items<Text>>,
}

/// A broker of the cluster.
#[derive(Drop, PartialEq, Eq)]
pub struct BrokerInfo {
    pub node: i32,
    pub host: Text,
    pub port: i32,
    pub rack: Option<Text>,
}

/// A partition of a topic: its leader, its replicas and those of them that are in sync, each by its node id.
#[derive(Drop, PartialEq, Eq)]
pub struct PartitionInfo {
    pub error: ErrorCode,
    pub index: i32,
    pub leader: i32,
    pub replicas: Shared<Items<i32>>,
    pub in_sync: Shared<Items<i32>>,
}

/// A topic with its partitions, or with an error and none.
#[derive(Drop, PartialEq, Eq)]
pub struct TopicInfo {
    pub error: ErrorCode,
    pub name: Text,
    pub internal: bool,
    pub partitions: Shared<Items<PartitionInfo>>,
}

/// The brokers of the cluster, which of them is the controller, and the topics that were asked for.
#[derive(Drop, PartialEq, Eq)]
pub struct MetadataReply {
    pub brokers: Shared<Items<BrokerInfo>>,
    pub controller: i32,
    pub topics: Items<TopicInfo>,
}

impl Wire for MetadataRequest {
    ghost use Rattle.msg_data.specs.Metadata.{metadata_request};

    ghost grammar = { metadata_request };

    fn read(alloc: Global, cursor: &mut Cursor<'_>) -> Result<MetadataRequest, ReadFault> {
        let topics = read_nullable_array(alloc, cursor)?;
        Ok(MetadataRequest { topics })
    }

    fn put(&self, out: &mut Vec<u8>) -> Result<(), WriteFault> {
        write_nullable_array(out, &self.topics)?;
        Ok(())
    }

    fn deduct_from(&self, budget: usize) -> Option<usize> {
        deduct_nullable_array(&self.topics, budget)
    }
}

impl Wire for BrokerInfo {
    ghost use Rattle.msg_data.specs.Metadata.{broker};

    ghost grammar = { broker };

    fn read(alloc: Global, cursor: &mut Cursor<'_>) -> Result<BrokerInfo, ReadFault> {
        let node = cursor.read_i32()?;
        let host = cursor.read_string(alloc)?;
        let port = cursor.read_i32()?;
        let rack = cursor.read_nullable(alloc)?;
        Ok(BrokerInfo {
            node,
            host,
            port,
            rack,
        })
    }

    fn put(&self, out: &mut Vec<u8>) -> Result<(), WriteFault> {
        write_i32(out, self.node)?;
        write_string(out, &self.host)?;
        write_i32(out, self.port)?;
        write_nullable(out, &self.rack)?;
        Ok(())
    }

    fn deduct_from(&self, budget: usize) -> Option<usize> {
        let budget = deduct(4, budget)?;
        let budget = deduct_string(&self.host, budget)?;
        let budget = deduct(4, budget)?;
        deduct_nullable(&self.rack, budget)
    }
}

impl Wire for PartitionInfo {
    ghost use Rattle.msg_data.specs.Metadata.{partition};

    ghost grammar = { partition };

    fn read(alloc: Global, cursor: &mut Cursor<'_>) -> Result<PartitionInfo, ReadFault> {
        let error = ErrorCode::read(alloc, cursor)?;
        let index = cursor.read_i32()?;
        let leader = cursor.read_i32()?;
        let replicas = Shared::read(alloc, cursor)?;
        let in_sync = Shared::read(alloc, cursor)?;
        Ok(PartitionInfo {
            error,
            index,
            leader,
            replicas,
            in_sync,
        })
    }

    fn put(&self, out: &mut Vec<u8>) -> Result<(), WriteFault> {
        self.error.write(out)?;
        write_i32(out, self.index)?;
        write_i32(out, self.leader)?;
        self.replicas.put(out)?;
        self.in_sync.put(out)?;
        Ok(())
    }

    fn deduct_from(&self, budget: usize) -> Option<usize> {
        let budget = self.error.deduct_from(budget)?;
        let budget = deduct(4, budget)?;
        let budget = deduct(4, budget)?;
        let budget = self.replicas.deduct_from(budget)?;
        self.in_sync.deduct_from(budget)
    }
}

impl Wire for TopicInfo {
    ghost use Rattle.msg_data.specs.Metadata.{topic};

    ghost grammar = { topic };

    fn read(alloc: Global, cursor: &mut Cursor<'_>) -> Result<TopicInfo, ReadFault> {
        let error = ErrorCode::read(alloc, cursor)?;
        let name = cursor.read_string(alloc)?;
        let internal = cursor.read_bool()?;
        let partitions = Shared::read(alloc, cursor)?;
        Ok(TopicInfo {
            error,
            name,
            internal,
            partitions,
        })
    }

    fn put(&self, out: &mut Vec<u8>) -> Result<(), WriteFault> {
        self.error.write(out)?;
        write_string(out, &self.name)?;
        write_bool(out, self.internal)?;
        self.partitions.put(out)?;
        Ok(())
    }

    fn deduct_from(&self, budget: usize) -> Option<usize> {
        let budget = self.error.deduct_from(budget)?;
        let budget = deduct_string(&self.name, budget)?;
        let budget = deduct(1, budget)?;
        self.partitions.deduct_from(budget)
    }
}

impl Wire for MetadataReply {
    ghost use Rattle.msg_data.specs.Metadata.{metadata_reply};

    ghost grammar = { metadata_reply };

    fn read(alloc: Global, cursor: &mut Cursor<'_>) -> Result<MetadataReply, ReadFault> {
        let brokers = Shared::read(alloc, cursor)?;
        let controller = cursor.read_i32()?;
        let topics = read_array(alloc, cursor)?;
        Ok(MetadataReply {
            brokers,
            controller,
            topics,
        })
    }

    fn put(&self, out: &mut Vec<u8>) -> Result<(), WriteFault> {
        self.brokers.put(out)?;
        write_i32(out, self.controller)?;
        write_array(out, &self.topics)?;
        Ok(())
    }

    fn deduct_from(&self, budget: usize) -> Option<usize> {
        let budget = self.brokers.deduct_from(budget)?;
        let budget = deduct(4, budget)?;
        deduct_array(&self.topics, budget)
    }
}
